ghost use Rattle.std.specs.Prelude.{◌≡◌, ◌≢◌, drop, map, string_bytes};
ghost use Rattle.std.specs.Process.{exit_status};
ghost use Rattle.inspect_words.specs.Modes.{AskNothing, asked_path};
ghost use Rattle.inspect.specs.EndText.{code_of, line_of};
ghost use Rattle.inspect.specs.Ends.{HasEnded, HasWritten, IfEnded, IfStore};

use crate::answer::answer;
use crate::end::End;
use crate::step::Step;
use cd_base::{Sink, Source, write_all};
use cd_cell::Hash32;
use inspect_words::{Asked, read_words};
use std::alloc::Global;
use std::process::ExitCode;

/// The words behind the program's name, which comes first.
pub fn words_behind_name(words: &[String]) -> &[String]
    ensures { result.now ≡ drop 1 words.now }
{
    match words {
        [_, behind @ ..] => behind,
        [] => words,
    }
}

/// Writes a text, of help or of the version.
fn show<S: Source, O: Sink>(text: &str, input: &mut S, out: &mut O) -> End
    ensures ended { HasEnded S.Source O.Sink input.old input.new out.old out.new result }
    ensures known { result ≢ End.Usage }
{
    let _ = input;
    match write_all(out, text.as_bytes()) {
        Ok(()) => End::Done,
        Err(_) => End::WriteFault,
    }
}

/// Does what the words ask for, but for what they ask about a database file.
pub fn run<S: Source, O: Sink, H: Hash32>(
    alloc: Global,
    words: &[String],
    input: &mut S,
    out: &mut O,
) -> Step
    ensures ended { IfEnded result (HasEnded S.Source O.Sink input.old input.new out.old out.new) }
    ensures unknown { IfEnded result (λ end. end ≡ End.Usage → AskNothing (map string_bytes words.now)) }
    ensures store { IfStore result (λ path. asked_path (map string_bytes words.now) ≡ Some path) }
    ensures untouched { IfStore result (λ _. (input.new ≡ input.old) × (out.new ≡ out.old)) }
{
    match read_words(alloc, words) {
        Ok(Asked::Work(mode)) => Step::Ended(answer::<S, O, H>(alloc, mode, input, out)),
        Ok(Asked::Store(path)) => Step::Store(path),
        Ok(Asked::Text(text)) => Step::Ended(show(&text, input, out)),
        Ok(Asked::Unknown) => Step::Ended(End::Usage),
        Err(_) => Step::Ended(End::Memory),
    }
}

/// Prints the line of an end to standard error, and gives its status. Where standard error fails, the status tells all.
pub fn finish<E: Sink>(end: End, err: &mut E) -> ExitCode
    ensures coded { exit_status result ≡ code_of end }
    ensures said { HasWritten E.Sink (line_of end) err.old err.new }
{
    let _ = write_all(err, end.line().as_bytes());
    ExitCode::from(end.code())
}
