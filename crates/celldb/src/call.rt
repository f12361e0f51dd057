ghost use Rattle.std.specs.Prelude.{◌≡◌, ◌≢◌, ℕ, List, [], None, IfOk, drop, map, option_map, string_bytes};
ghost use Rattle.std.specs.Process.{exit_status};
ghost use Rattle.cd_command.specs.Printing.{TextEnds};
ghost use Rattle.cd_command.specs.StatusText.{code_of};
ghost use Rattle.cd_fan.specs.Fans.{HaveGotBytes};
ghost use Rattle.cd_words.specs.Pages.{page_of};
ghost use Rattle.celldb.specs.Places.{AreFiles, IsDatabase, client_status, files_in, keeper_status, path_in};
ghost use Rattle.celldb.specs.Runs.{HasSaid, IsRun, IsPage};

use cd_base::{Memory, Sink, Source, write_all};
use cd_cell::Hash32;
use cd_fan::{Client, FileFault, SliceClient};
use cd_keeper::{KeepFault, Keeper};
use cd_run::NoHoldup;
use cd_top::{Ended, Status, WordFault, celldb_once, celldb_run};
use cd_words::{Command, Page, is_run, page_of, page_text, read_words};
use std::alloc::Global;
use std::io::ErrorKind;
use std::process::ExitCode;
use std::sync::Wait;
use std::thread::Threads;

/// The words behind the program's name, which comes first.
pub fn words_behind_name(words: &[String]) -> &[String]
    ensures { result.now ≡ drop 1 words.now }
{
    match words {
        [_, behind @ ..] => behind,
        [] => words,
    }
}

/// The status where the words can't be had: memory ran out, or one isn't UTF-8, and so no word of a command.
pub fn status_without_words(error: ErrorKind) -> Status {
    match error {
        ErrorKind::OutOfMemory => Status::Memory,
        _ => Status::Usage(WordFault::Usage),
    }
}

/// The status where a database can't be opened.
pub fn status_of_keeper(fault: KeepFault) -> Status
    ensures { result ≡ keeper_status fault }
{
    match fault {
        KeepFault::Failed => Status::KeeperFault,
        KeepFault::Memory => Status::Memory,
    }
}

/// The status where a client's file can't be made.
pub fn status_of_client(fault: FileFault) -> Status
    ensures { result ≡ client_status fault }
{
    match fault {
        FileFault::Failed => Status::ClientFault,
        FileFault::Memory => Status::Memory,
    }
}

/// The files that words name.
#[derive(Drop)]
pub struct Places {
    /// The path of the database.
    pub db: Option<String>,
    /// The paths of the clients' files.
    pub to: Vec<String>,
}

/// The files that a command names.
fn places_in(alloc: Global, command: Command) -> Places
    ensures db { option_map string_bytes result.db ≡ path_in command }
    ensures to { map string_bytes result.to.items ≡ files_in command }
{
    let to = Vec::new(alloc);
    match command {
        Command::Zero { db, .. } => Places { db, to },
        Command::Replay { db, to } => Places { db, to },
        Command::Run { db, to } => Places { db, to },
        Command::Check { db } => Places { db, to },
        Command::Export { db, to, .. } => Places { db, to },
        Command::Gen { .. } => Places { db: None, to },
        Command::Migrate { db } => Places { db, to },
    }
}

fn no_places(alloc: Global) -> Places
    ensures db { option_map string_bytes result.db ≡ None }
    ensures to { map string_bytes result.to.items ≡ [] }
{
    Places {
        db: None,
        to: Vec::new(alloc),
    }
}

/// The database that words name by `--db`, and the files that a replay, a run or an export names by `--to`. Words that are no
/// command name none.
pub fn places_of(alloc: Global, words: &[String]) -> Result<Places, Memory>
    ensures db { IfOk result (λ places.
        IsDatabase (map string_bytes words.now) (option_map string_bytes places.db)) }
    ensures to { IfOk result (λ places.
        AreFiles (map string_bytes words.now) (map string_bytes places.to.items)) }
{
    match read_words(alloc, words) {
        Ok(command) => Ok(places_in(alloc, command)),
        Err(WordFault::Memory) => Err(Memory),
        Err(WordFault::Usage) => Ok(no_places(alloc)),
        Err(WordFault::BadValue { .. }) => Ok(no_places(alloc)),
    }
}

/// Prints the line of a status to standard error, and gives its number. Where standard error fails, the number tells
/// all.
pub fn end<E: Sink>(status: Status, err: &mut E) -> ExitCode
    ensures coded { exit_status result ≡ code_of status }
    ensures said { HasSaid E.Sink status err.old err.new }
{
    let _ = write_all(err, status.line().as_bytes());
    ExitCode::from(status.code())
}

/// Prints a page to standard output.
fn show<O: Sink>(alloc: Global, page: Page, out: &mut O) -> Status
    ensures { (text : List ℕ) × TextEnds O.Sink text out.old out.new result }
{
    match page_text(alloc, page) {
        Err(_) => Status::Memory,
        Ok(text) => match write_all(out, text.as_bytes()) {
            Err(_) => Status::WriteFault,
            Ok(()) => Status::Ok,
        },
    }
}

/// One run of the program over the objects of the outside, from its words to its exit status. Words that ask for a page
/// are no call: the page is printed, and nothing else is asked. The runtime makes the threads of the command `run`.
pub fn run<
    S: Source,
    O: Sink,
    E: Sink,
    K: Keeper + Send,
    H: Hash32 + Send + Sync,
    R: Threads + Wait + Sync,
>(
    rt: &R,
    alloc: Global,
    words: &[String],
    input: &mut S,
    out: &mut O,
    err: &mut E,
    keeper: K,
    clients: Vec<Client>,
) -> ExitCode
    requires fresh { HaveGotBytes (λ c. got c) 0 clients.items }
    ensures call { page_of (map string_bytes words.now) ≡ None
        → IsRun H.digest_of S.Source O.Sink E.Sink K.Keeper H (λ c. got c) (λ c. steady c)
        (map string_bytes words.now) input.old input.new out.old out.new err.old err.new
        keeper clients.items (exit_status result) }
    ensures page { page_of (map string_bytes words.now) ≢ None
        → IsPage S.Source O.Sink E.Sink input.old input.new out.old out.new err.old err.new (exit_status result) }
{
    if let Some(page) = page_of(words) {
        return end(show(alloc, page, out), err);
    }
    if is_run(words) {
        let Ended {
            status,
            keeper: _,
            journal: _,
            clients: _,
        } = celldb_run::<S, O, K, H, NoHoldup, R>(
            rt, alloc, words, input, out, keeper, clients, &NoHoldup,
        );
        return end(status, err);
    }
    let Ended {
        status,
        keeper: _,
        journal: _,
        clients: _,
    } = celldb_once::<S, O, K, H>(alloc, words, input, out, keeper, clients);
    end(status, err)
}
