ghost use Rattle.std.specs.Prelude.{◌≡◌};
ghost use Rattle.cd_words.specs.Names as spec;

use std::fmt;

/// The commands of the program.
#[derive(Clone, Copy, Debug, PartialEq, Eq)]
pub enum CommandName {
    Zero,
    Replay,
    Run,
    Check,
    Export,
    Gen,
    Migrate,
}

/// The options of the program's commands.
#[derive(Clone, Copy, Debug, PartialEq, Eq)]
pub enum OptionName {
    Workchain,
    File,
    Db,
    To,
    Id,
    Max,
    Number,
}

impl CommandName {
    /// The command that a word names.
    pub fn of(word: &str) -> Option<CommandName>
        ensures { result ≡ spec.command_named word.now }
    {
        match word {
            "zero" => Some(CommandName::Zero),
            "replay" => Some(CommandName::Replay),
            "run" => Some(CommandName::Run),
            "check" => Some(CommandName::Check),
            "export" => Some(CommandName::Export),
            "gen" => Some(CommandName::Gen),
            "migrate" => Some(CommandName::Migrate),
            _ => None,
        }
    }

    /// Whether the command has the option.
    pub fn takes(self, option: OptionName) -> bool
        ensures { result ≡ spec.takes self option }
    {
        match self {
            CommandName::Zero => matches!(
                option,
                OptionName::Workchain | OptionName::File | OptionName::Db
            ),
            CommandName::Replay | CommandName::Run => matches!(
                option,
                OptionName::Db | OptionName::To
            ),
            CommandName::Check | CommandName::Migrate => matches!(option, OptionName::Db),
            CommandName::Export => matches!(
                option,
                OptionName::Id | OptionName::Max | OptionName::Db | OptionName::To
            ),
            CommandName::Gen => matches!(option, OptionName::Number),
        }
    }

    /// The option without which the command can't be.
    pub fn needs(self) -> Option<OptionName>
        ensures { result ≡ spec.needs self }
    {
        match self {
            CommandName::Export => Some(OptionName::Id),
            CommandName::Gen => Some(OptionName::Number),
            _ => None,
        }
    }
}

impl OptionName {
    /// The option of this name, which stands behind two hyphens in a word.
    pub fn of(name: &str) -> Option<OptionName>
        ensures { result ≡ spec.option_named name.now }
    {
        match name {
            "workchain" => Some(OptionName::Workchain),
            "file" => Some(OptionName::File),
            "db" => Some(OptionName::Db),
            "to" => Some(OptionName::To),
            "id" => Some(OptionName::Id),
            "max" => Some(OptionName::Max),
            "number" => Some(OptionName::Number),
            _ => None,
        }
    }

    /// Whether it is that option.
    pub fn is(self, other: OptionName) -> bool
        ensures { result ≡ spec.is_same self other }
    {
        self == other
    }

    /// The option's name, without its hyphens.
    pub fn text(self) -> &'static str
        ensures { result.now ≡ spec.name_of self }
    {
        match self {
            OptionName::Workchain => "workchain",
            OptionName::File => "file",
            OptionName::Db => "db",
            OptionName::To => "to",
            OptionName::Id => "id",
            OptionName::Max => "max",
            OptionName::Number => "number",
        }
    }
}

impl fmt::Display for OptionName {
    ghost use Rattle.std.specs.Prelude.{Some};
    ghost use Rattle.cd_words.specs.Names as spec;

    ghost output = { λ name. Some (spec.name_of name) };

    fn fmt<W: fmt::Write>(&self, f: &mut fmt::Formatter<W>) -> fmt::Result {
        f.write_str(self.text())
    }
}
