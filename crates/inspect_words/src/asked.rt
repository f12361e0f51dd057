ghost use Rattle.std.specs.Prelude.{◌≡◌, ◌≢◌, ◌↔◌, None, map, string_bytes, IfOk};
ghost use Rattle.clap.specs.Words.{kind_of, subcommand_rows_of};
ghost use Rattle.clap.specs.declared.error.kind.ErrorKind.TheVariants.{OutOfMemory};
ghost use Rattle.inspect_words.specs.Modes.{mode_of, mode_in, asked_mode, path_of, path_in, asked_path, IsText, IsOfText, MayShowText, ShowsText};

use crate::commands::inspect;
use crate::mode::{Mode, path_in};
use clap::error::ErrorKind;
use clap::{ArgMatches, Error};
use std::alloc::{AllocError, Global};

/// What words ask for.
#[derive(Drop)]
pub enum Asked {
    /// To do this.
    Work(Mode),
    /// To say what the database file at this path holds.
    Store(String),
    /// To print this text, of help or of the version.
    Text(String),
    /// They are no words of the program.
    Unknown,
}

/// What is asked for by words of which the parse gives no matches.
fn asked_of_error(alloc: Global, error: &Error) -> Result<Asked, AllocError>
    ensures memory { IfOk result (λ _. kind_of error.now ≢ OutOfMemory) }
    ensures mode { IfOk result (λ asked. mode_of asked ≡ None) }
    ensures path { IfOk result (λ asked. path_of asked ≡ None) }
    ensures text { IfOk result (λ asked. IsText asked ↔ IsOfText (kind_of error.now)) }
{
    match error.kind() {
        ErrorKind::OutOfMemory => Err(AllocError),
        ErrorKind::DisplayHelp | ErrorKind::DisplayVersion => {
            Ok(Asked::Text(format!(in alloc; "{error}")?))
        }
        _ => Ok(Asked::Unknown),
    }
}

/// What is asked for by words of which the parse gives matches.
fn asked_of_matches(alloc: Global, matches: &ArgMatches<'_>) -> Result<Asked, AllocError>
    ensures mode { IfOk result (λ asked. mode_of asked ≡ mode_in (subcommand_rows_of matches.now)) }
    ensures path { IfOk result (λ asked. path_of asked ≡ path_in (subcommand_rows_of matches.now)) }
    ensures text { IfOk result (λ asked. ¬ IsText asked) }
{
    if let Some(path) = path_in(matches) {
        return Ok(Asked::Store(String::from_str(alloc, path)?));
    }
    match Mode::of(matches) {
        Some(mode) => Ok(Asked::Work(mode)),
        None => Ok(Asked::Unknown),
    }
}

/// What the words behind the program's name ask for, unless memory runs out.
pub fn read_words(alloc: Global, words: &[String]) -> Result<Asked, AllocError>
    ensures mode { IfOk result (λ asked. mode_of asked ≡ asked_mode (map string_bytes words.now)) }
    ensures path { IfOk result (λ asked. path_of asked ≡ asked_path (map string_bytes words.now)) }
    ensures text { IfOk result (λ asked. IsText asked → MayShowText (map string_bytes words.now)) }
    ensures shown { ShowsText (map string_bytes words.now) → IfOk result IsText }
{
    match inspect(alloc)?.try_get_matches_from(words) {
        Ok(matches) => asked_of_matches(alloc, &matches),
        Err(error) => asked_of_error(alloc, &error),
    }
}
