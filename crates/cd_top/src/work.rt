ghost use Rattle.std.specs.Prelude.{◌≡◌, MatchResult, Some, None, IfOk, IfErr, OnOk, map, string_bytes};
ghost use Rattle.cd_top.specs.Call as spec;
ghost use Rattle.cd_top.specs.Call.{EndsUntaken, IsForOnce, IsForRun, IsLineOf, IsRunLine, work_by};
ghost use Rattle.cd_top.specs.Within.{IsWithin};

use cd_block::BlockId;
use cd_command::{Status, WordFault};
use cd_words::{Command, read_words};
use cd_zero::ZeroName;
use std::alloc::Global;

/// What a call on one thread is to do. Which keeper it is done over is the caller's matter.
#[derive(Drop)]
pub enum Work {
    /// The command `zero`, by what its words say of the block's name.
    Zero(ZeroName),
    /// The command `replay`.
    Replay,
    /// The command `check`.
    Check,
    /// The command `migrate`.
    Migrate,
    /// The command `export`, by the block's id and by how many bytes a piece may have.
    Export { id: BlockId, max: u32 },
    /// The command `gen`, by the number of the feed.
    Gen(u64),
}

/// What a command asks for, or the status of a call over a command that is done on threads.
fn work_in(command: Command) -> Result<Work, Status>
    ensures { MatchResult result (λ work. work_by command ≡ Some work)
        (λ status. (status ≡ Status.Usage WordFault.Usage) × (work_by command ≡ None)) }
{
    match command {
        Command::Zero {
            workchain,
            file,
            ..
        } => Ok(Work::Zero(ZeroName { workchain, file })),
        Command::Replay { .. } => Ok(Work::Replay),
        Command::Check { .. } => Ok(Work::Check),
        Command::Migrate { .. } => Ok(Work::Migrate),
        Command::Export { id, max, .. } => Ok(Work::Export { id, max }),
        Command::Gen { number } => Ok(Work::Gen(number)),
        Command::Run { .. } => Err(Status::Usage(WordFault::Usage)),
    }
}

/// The status of a call over words that are refused.
fn status_by(fault: WordFault) -> Status
    ensures { result ≡ spec.status_by fault }
{
    match fault {
        WordFault::Memory => Status::Memory,
        WordFault::Usage | WordFault::BadValue { .. } => Status::Usage(fault),
    }
}

/// What the words ask for, or the status of a call over words that are not taken.
pub fn work_of(alloc: Global, words: &[String]) -> Result<Work, Status>
    ensures found { IfOk result (λ work. IsLineOf work (map string_bytes words.now)) }
    ensures within { IfOk result IsWithin }
    ensures other { IfErr result (EndsUntaken IsForRun (map string_bytes words.now)) }
{
    match read_words(alloc, words) {
        Ok(command) => work_in(command),
        Err(fault) => Err(status_by(fault)),
    }
}

/// Takes words of the command that is done on threads, or gives the status of a call over words that are not taken.
pub fn take_run(alloc: Global, words: &[String]) -> Result<(), Status>
    ensures found { OnOk result (IsRunLine (map string_bytes words.now)) }
    ensures other { IfErr result (EndsUntaken IsForOnce (map string_bytes words.now)) }
{
    match read_words(alloc, words) {
        Ok(command) => match work_in(command) {
            Ok(_) => Err(Status::Usage(WordFault::Usage)),
            Err(_) => Ok(()),
        },
        Err(fault) => Err(status_by(fault)),
    }
}
