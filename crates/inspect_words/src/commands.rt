ghost use Rattle.std.specs.Prelude.{◌≡◌, IfOk, false};
ghost use Rattle.clap.specs.Words.{app_of, rule_of};
ghost use Rattle.clap.specs.declared.builder.command.Command.TheViews.{out-Command as fields_of};
ghost use Rattle.inspect_words.specs.Commands as spec;

use clap::{Arg, ArgAction, Command};
use std::alloc::{AllocError, Global};

const VERSION: &str = "1";

const TOP_EXAMPLE: &str = "\
For each bag, update, feed or store there is a line on standard output: what it has, or the first fault with its fields.
The status is 0 where all was read and printed, 1 where that failed, and 2 where the words are unknown.

Example:
    $ echo b5ee9c72010101010002000000 | inspect bags
    ok roots 1 cells 1";

const BAGS_EXAMPLE: &str = "\
Reads a bag in hexadecimal from each line of standard input. The flags may come in either order, and --export and
--levels exclude each other. For each bag there is a line: `ok roots N cells M`, or its first fault. With --levels
each root has a line in its place: `mask M hashes H0 H1 H2 H3 depths D0 D1 D2 D3`, at the levels 0 to 3.

Example:
    $ echo b5ee9c72010101010002000000 | inspect bags
    ok roots 1 cells 1
    $ inspect bags --export < state.boc > export.boc";

const UPDATES_EXAMPLE: &str = "\
Reads a state from the first line of standard input, and from each other line a Merkle update of it, as bags in
hexadecimal. For the state there is a line as by `inspect bags`. For each update there is one with the number of
cells of the state that it shows, the number of new cells, and the hash of the new root, or why it is refused.

Example:
    $ cat state.hex updates.hex | inspect updates
    ok roots 1 cells 1023
    ok shown 191 new 191 root 6e7f..
    OldHash { stated: abab.., real: 96a2.. }";

const MERGED_EXAMPLE: &str = "\
Reads two states, left and right, from the first two lines of standard input, and from each other line a Merkle update
of their joined tree, as a block has it that follows the merge of two shards. Each state has its line, or the right one
`Clash { hash: H }` where a cell of it and one of the left differ under one hash. The lines of the updates are those of
`inspect updates`; the cells that an update shows are those below the joined one.

Example:
    $ cat left.hex right.hex updates.hex | inspect merged
    ok roots 1 cells 7
    ok roots 1 cells 9
    ok shown 4 new 3 root 74f6..
    SplitDeep { depth: 1025 }";

const FEED_EXAMPLE: &str = "\
Reads a feed as bytes from standard input. There is a line `ok phases N tasks N`, and behind it a line for each task,
by phase, worker and place from 0: its kind, its ids, and how many tops, bytes of its bag or steps of its path it has,
or the greatest size of its slices. Where the bytes are no feed, there is their first fault.

Example:
    $ inspect feed < feed.bin
    ok phases 1 tasks 1
    0.0.0 zero (-1,8000000000000000,0):96a2..:0000.. tops 0 bag 13";

const STORE_EXAMPLE: &str = "\
Reads a database file of the store, and the log beside it, whose name is the file's with `-wal` behind it. There is a line
`ok blocks N cells N counts N`: the blocks, the distinct cells, and all references to cells together. Where the file isn't
a store, there is the first thing that is wrong with it. Both files are only read.

Example:
    $ inspect store node.db
    ok blocks 14 cells 5170 counts 6578";

/// An option without a value.
fn flag<'a>(alloc: Global, name: &'a str, help: &'a str) -> Arg<'a>
    ensures rule { rule_of result ≡ spec.flag name.entry.now }
    ensures local { result.global ≡ false }
{
    Arg::new(alloc, name)
        .long(name)
        .action(ArgAction::SetTrue)
        .help(help)
}

/// The command `bags`.
fn bags<'a>(alloc: Global) -> Result<Command<'a>, AllocError>
    ensures app { IfOk result (λ command. app_of command ≡ spec.bags) }
    ensures local { IfOk result (λ command. (fields_of command).has_globals ≡ false) }
{
    Command::new(alloc, "bags")
        .about("Says of bags of cells what they have, or why they are none")
        .override_usage("inspect bags [OPTIONS]")
        .after_help(BAGS_EXAMPLE)
        .arg(flag(
            alloc,
            "raw",
            "One bag as bytes, in place of a bag in hexadecimal a line",
        ))?
        .arg(flag(
            alloc,
            "export",
            "The export text of the one root of the bag; means --raw",
        ))?
        .arg(flag(
            alloc,
            "levels",
            "What each root shows: its mask, and its hashes and depths at the levels 0 to 3",
        ))
}

/// The command `updates`.
fn updates<'a>(alloc: Global) -> Command<'a>
    ensures app { app_of result ≡ spec.updates }
    ensures local { (fields_of result).has_globals ≡ false }
{
    Command::new(alloc, "updates")
        .about("Says of Merkle updates of a state what they bring, or why they are refused")
        .override_usage("inspect updates")
        .after_help(UPDATES_EXAMPLE)
}

/// The command `merged`.
fn merged<'a>(alloc: Global) -> Command<'a>
    ensures app { app_of result ≡ spec.merged }
    ensures local { (fields_of result).has_globals ≡ false }
{
    Command::new(alloc, "merged")
        .about("Says the same of updates of the joined tree of two states")
        .override_usage("inspect merged")
        .after_help(MERGED_EXAMPLE)
}

/// The command `feed`.
fn feed<'a>(alloc: Global) -> Command<'a>
    ensures app { app_of result ≡ spec.feed }
    ensures local { (fields_of result).has_globals ≡ false }
{
    Command::new(alloc, "feed")
        .about("Says of a feed which tasks it has, or why it is none")
        .override_usage("inspect feed")
        .after_help(FEED_EXAMPLE)
}

/// The command `store`.
fn store<'a>(alloc: Global) -> Result<Command<'a>, AllocError>
    ensures app { IfOk result (λ command. app_of command ≡ spec.store) }
    ensures local { IfOk result (λ command. (fields_of command).has_globals ≡ false) }
{
    Command::new(alloc, "store")
        .about("Says of a database file how much it holds, or why it isn't a store")
        .override_usage("inspect store <PATH>")
        .after_help(STORE_EXAMPLE)
        .arg(
            Arg::new(alloc, "PATH")
                .required(true)
                .action(ArgAction::Set)
                .help("The database file"),
        )
}

/// The commands on bags and on updates of one state.
fn first_commands<'a>(alloc: Global) -> Result<Command<'a>, AllocError>
    ensures { IfOk result (λ command. app_of command ≡ spec.first_commands) }
{
    Command::new(alloc, "inspect")
        .version(VERSION)
        .about(
            "Says of bags of cells, Merkle updates, feeds and stores what they have, or why they are refused",
        )
        .after_help(TOP_EXAMPLE)
        .no_binary_name(true)
        .disable_help_subcommand(true)
        .subcommand_required(true)
        .subcommand(bags(alloc)?)?
        .subcommand(updates(alloc))
}

/// All commands.
pub(crate) fn inspect<'a>(alloc: Global) -> Result<Command<'a>, AllocError>
    ensures { IfOk result (λ command. app_of command ≡ spec.inspect) }
{
    first_commands(alloc)?
        .subcommand(merged(alloc))?
        .subcommand(feed(alloc))?
        .subcommand(store(alloc)?)
}
