ghost use Rattle.std.specs.Prelude.{◌≡◌, ◌↔◌, map, IfOk, IfErr, IsTrue, MatchResult, string_bytes};
ghost use Rattle.cd_words.specs.Plain.{PlainLine, IsPlain, words_of, meant};
ghost use Rattle.cd_words.specs.Reading.{HasCommand, HasPaths, IsSpeltLine, IsRefusal, BeginsWithRun};
ghost use Rattle.cd_words.specs.Values.{Spells};
ghost use Rattle.cd_words.specs.Views.{line_in};

use crate::command::Command;
use crate::fault::WordFault;
use crate::line::{Line, line_of};
use crate::values::{command_of, first_bad, paths_of};
use std::alloc::Global;

/// The line that words are, if all of its values are such as their options may have.
fn spelt_line<'a>(alloc: Global, words: &'a [String]) -> Result<Line<'a>, WordFault>
    ensures found { IfOk result (λ line. IsSpeltLine (map string_bytes words.now) (line_in line)) }
    ensures refused { IfErr result (IsRefusal (map string_bytes words.now)) }
{
    match line_of(alloc, words) {
        Err(fault) => Err(fault),
        Ok(line) => match first_bad(&line.given) {
            Some(option) => Err(WordFault::BadValue { option }),
            None => Ok(line),
        },
    }
}

/// The command that words spell, which are those behind the program's name. An option and its value are the one word
/// `--name=value` or the two words `--name` and `value`, in any order behind the command.
///
/// `Usage` where they aren't a command with options of its own, and else `BadValue` for the first value that its
/// option can't have.
pub fn read_words(alloc: Global, words: &[String]) -> Result<Command, WordFault>
    ensures found { IfOk result (HasCommand (map string_bytes words.now)) }
    ensures refused { IfErr result (IsRefusal (map string_bytes words.now)) }

    // A plain line is read, unless memory runs out.
    ensures plain { (line : PlainLine) → IsPlain line → map string_bytes words.now ≡ words_of line
        → MatchResult result (Spells (meant line)) (λ fault. fault ≡ WordFault.Memory) }
{
    match spelt_line(alloc, words) {
        Err(fault) => Err(fault),
        Ok(line) => command_of(alloc, &line),
    }
}

/// The paths of the options `--to`, in their order. Words are refused as by `read_words`.
pub fn client_words(alloc: Global, words: &[String]) -> Result<Vec<String>, WordFault>
    ensures found { IfOk result (λ paths. HasPaths (map string_bytes words.now) (map string_bytes paths.items)) }
    ensures refused { IfErr result (IsRefusal (map string_bytes words.now)) }
{
    match spelt_line(alloc, words) {
        Err(fault) => Err(fault),
        Ok(line) => paths_of(alloc, &line.given),
    }
}

/// Whether the first word is `run`.
pub fn is_run(words: &[String]) -> bool
    ensures { IsTrue result ↔ BeginsWithRun (map string_bytes words.now) }
{
    match words {
        [first, ..] => first.as_str() == "run",
        [] => false,
    }
}
