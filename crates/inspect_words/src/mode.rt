ghost use Rattle.std.specs.Prelude.{◌≡◌, ℕ, List, codes, option_map};
ghost use Rattle.clap.specs.Words.{found_of, rows_of, subcommand_rows_of};
ghost use Rattle.inspect_words.specs.Modes as spec;
ghost use Rattle.inspect_words.specs.Modes.{is_set, bags_mode, mode_in};

use clap::ArgMatches;

/// What the program is asked for.
#[derive(Clone, Copy, Debug, PartialEq, Eq)]
pub enum Mode {
    /// A line for each line of the input, which has a bag.
    Lines,
    /// One line for the input, which is a bag.
    Raw,
    /// The export text of the one root of the bag that the input is.
    Export,
    /// For each line of the input, which has a bag, a line for each root.
    Levels,
    /// A line for each root of the bag that the input is.
    RawLevels,
    /// A state in the first line of the input, and a line for each line behind it, which has an update.
    Updates,
    /// Two states in the first two lines of the input, and a line for each line behind them, which has an update of their
    /// joined tree.
    Merged,
    /// A line for the feed that the input is, and one for each of its tasks.
    Feed,
}

/// Whether a flag is given.
fn is_given(flags: &ArgMatches<'_>, flag: &str) -> bool
    ensures { result ≡ is_set flag.now (rows_of (found_of flags.now)) }
{
    match flags.get_str(flag) {
        Some(value) => value == "true",
        None => false,
    }
}

/// The path that the matches of the words have, if they ask about a database file.
pub(crate) fn path_in<'a>(matches: &ArgMatches<'a>) -> Option<&'a str>
    ensures { option_map (λ path. path.now) result ≡ spec.path_in (subcommand_rows_of matches.now) }
{
    match matches.subcommand() {
        Some(("store", values)) => values.get_str("PATH"),
        _ => None,
    }
}

impl Mode {
    /// The mode of the command `bags` by its flags; `None` where they exclude each other.
    fn of_bags(raw: bool, export: bool, levels: bool) -> Option<Mode>
        ensures { result ≡ bags_mode raw export levels }
    {
        match (raw, export, levels) {
            (false, false, false) => Some(Mode::Lines),
            (true, false, false) => Some(Mode::Raw),
            (_, true, false) => Some(Mode::Export),
            (false, false, true) => Some(Mode::Levels),
            (true, false, true) => Some(Mode::RawLevels),
            (_, true, true) => None,
        }
    }

    /// The mode that the matches of the words ask for, if they ask for one.
    pub(crate) fn of(matches: &ArgMatches<'_>) -> Option<Mode>
        ensures { result ≡ mode_in (subcommand_rows_of matches.now) }
    {
        match matches.subcommand() {
            Some(("bags", flags)) => Mode::of_bags(
                is_given(flags, "raw"),
                is_given(flags, "export"),
                is_given(flags, "levels"),
            ),
            Some(("updates", _)) => Some(Mode::Updates),
            Some(("merged", _)) => Some(Mode::Merged),
            Some(("feed", _)) => Some(Mode::Feed),
            _ => None,
        }
    }
}
