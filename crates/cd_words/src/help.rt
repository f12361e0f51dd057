ghost use Rattle.std.specs.Prelude.{◌≡◌, ◌++◌, map, codes, IfOk, string_bytes};
ghost use Rattle.cd_words.specs.Pages as spec;
ghost use Rattle.cd_words.specs.Pages.{EndsLine};

use crate::names::{CommandName, OptionName};
use cd_base::Memory;
use clap::{Arg, ArgAction, Command};
use std::alloc::Global;

/// A page that is printed in place of what a command does.
#[derive(Clone, Copy, Debug, PartialEq, Eq)]
pub enum Page {
    /// What the program does, or one command of it.
    Help(Option<CommandName>),
    /// The program's name and version.
    Version,
}

/// The commands and the options, in the order of the pages.
const COMMANDS: [CommandName; 7] = [
    CommandName::Zero,
    CommandName::Replay,
    CommandName::Run,
    CommandName::Check,
    CommandName::Export,
    CommandName::Gen,
    CommandName::Migrate,
];

const OPTIONS: [OptionName; 7] = [
    OptionName::Workchain,
    OptionName::File,
    OptionName::Id,
    OptionName::Max,
    OptionName::Number,
    OptionName::Db,
    OptionName::To,
];

const VERSION: &str = "0.1.0";

const STATUSES: &str = "\
Examples:
  celldb zero --workchain 0 < STATE.boc
  celldb gen --number 7 > FEED.cdf

Commands that say 'not yet', and the option --db, are a usage fault so far.

Exit statuses, with the line on standard error:
  0                        done
  1  celldb: usage         the words are no command with its options; nothing was read
  2  celldb: bad input     the input is too long, or not what the command reads
  4  celldb: read fault    standard input failed
  5  celldb: write fault   standard output failed; what was to be stored is stored
  6  celldb: keeper fault  the store failed
  8  celldb: refused WORD  the input is good, but cannot be stored: WORD says why
  9  celldb: no memory     memory ran out";

/// The page that words ask for: `--help`, `-h` or `--version`, alone or behind a command.
pub fn page_of(words: &[String]) -> Option<Page>
    ensures { result ≡ spec.page_of (map string_bytes words.now) }
{
    match words {
        [word] => page_named(None, word.as_str()),
        [command, word] => match CommandName::of(command.as_str()) {
            None => None,
            Some(name) => page_named(Some(name), word.as_str()),
        },
        _ => None,
    }
}

fn page_named(command: Option<CommandName>, word: &str) -> Option<Page>
    ensures { result ≡ spec.page_named command word.now }
{
    if word == "--help" || word == "-h" {
        return Some(Page::Help(command));
    }
    if word == "--version" {
        return Some(Page::Version);
    }
    None
}

/// The text of a page, with the end of its last line.
pub fn page_text(alloc: Global, page: Page) -> Result<String, Memory>
    ensures { IfOk result (λ text. EndsLine (string_bytes text)) }
{
    let text = laid_out(alloc, page)?;
    with_line_end(alloc, text.as_str().trim_end())
}

fn with_line_end(alloc: Global, text: &str) -> Result<String, Memory>
    ensures { IfOk result (λ line. string_bytes line ≡ text.now ++ codes "\n") }
{
    let mut line = String::from_str(alloc, text)?;
    line.push_str("\n")?;
    Ok(line)
}

fn laid_out(alloc: Global, page: Page) -> Result<String, Memory> {
    let text = match page {
        Page::Help(None) => program(alloc)?.render_help()?,
        Page::Help(Some(name)) => alone(alloc, name)?.render_help()?,
        Page::Version => program(alloc)?.render_version()?,
    };
    Ok(text)
}

/// The program with all of its commands.
fn program(alloc: Global) -> Result<Command<'static>, Memory> {
    let version = Arg::new(alloc, "version")
        .long("version")
        .action(ArgAction::Version)
        .help("Print the version");
    let mut program = Command::new(alloc, "celldb")
        .about("Keeps the states of a TON node's blocks: each distinct cell once, under its hash.")
        .after_help(STATUSES)
        .version(VERSION)
        .disable_version_flag(true)
        .disable_help_subcommand(true)
        .arg(version)?;
    for name in COMMANDS {
        program = program.subcommand(command(alloc, name)?)?;
    }
    Ok(program)
}

/// A command on a page of its own.
fn alone(alloc: Global, name: CommandName) -> Result<Command<'static>, Memory> {
    Ok(
        command(alloc, name)?
            .bin_name(text_of(name).path)?
            .after_help("celldb --help has the exit statuses."),
    )
}

/// A command with its options.
fn command(alloc: Global, name: CommandName) -> Result<Command<'static>, Memory> {
    let text = text_of(name);
    let mut command = Command::new(alloc, text.name).about(text.about);
    for option in OPTIONS {
        if name.takes(option) {
            command = command.arg(argument(alloc, name, option))?;
        }
    }
    Ok(command)
}

/// An option of a command.
fn argument(alloc: Global, name: CommandName, option: OptionName) -> Arg<'static> {
    let (value, help) = value_of(option);
    let action = match option {
        OptionName::To => ArgAction::Append,
        _ => ArgAction::Set,
    };
    Arg::new(alloc, option.text())
        .long(option.text())
        .value_name(value)
        .help(help)
        .action(action)
        .required(name.needs() == Some(option))
}

/// The name of a command, how it is called, and what it reads and prints.
#[derive(Clone, Copy)]
struct CommandText {
    name: &'static str,
    path: &'static str,
    about: &'static str,
}

fn text_of(name: CommandName) -> CommandText {
    let (name, path, about) = match name {
        CommandName::Zero => (
            "zero",
            "celldb zero",
            "Reads a state as a bag of cells, stores it as a zero state, prints the block's name and its number of cells",
        ),
        CommandName::Replay => (
            "replay",
            "celldb replay",
            "Reads a feed, does its tasks one after another, prints a line for each (not yet)",
        ),
        CommandName::Run => (
            "run",
            "celldb run",
            "Reads a feed, does its tasks on a thread for each worker, prints a line for each (not yet)",
        ),
        CommandName::Check => (
            "check",
            "celldb check",
            "Reads the whole store, prints three totals (not yet)",
        ),
        CommandName::Export => (
            "export",
            "celldb export",
            "Writes a block's state to files in slices, prints three lines (not yet)",
        ),
        CommandName::Gen => (
            "gen",
            "celldb gen",
            "Reads nothing, prints the feed of a number, for tests and measurements",
        ),
        CommandName::Migrate => (
            "migrate",
            "celldb migrate",
            "Rewrites the store's records of version 1, prints two numbers (not yet)",
        ),
    };
    CommandText { name, path, about }
}

/// What stands for the value of an option, and what it is.
fn value_of(option: OptionName) -> (&'static str, &'static str) {
    match option {
        OptionName::Workchain => (
            "N",
            "The block's workchain, from 0 to 2147483647; the masterchain without it",
        ),
        OptionName::File => (
            "HEX",
            "The hash of the block's file, 64 hexadecimal digits; zeros without it",
        ),
        OptionName::Db => (
            "PATH",
            "The database of the store (not yet); in memory without it",
        ),
        OptionName::To => ("PATH", "A file that gets the slices; any number of times"),
        OptionName::Id => ("ID", "The block's name, as zero prints it"),
        OptionName::Max => (
            "N",
            "The greatest size of a slice in bytes, from 1 to 2097152; 2097152 without it",
        ),
        OptionName::Number => (
            "N",
            "The number of the feed, from 0 to 18446744073709551615",
        ),
    }
}
