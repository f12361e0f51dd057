//! What the command tells of a serve.
ghost use Rattle.std.specs.Prelude.{◌≡◌, IfOk, string_bytes};
ghost use Rattle.cd_export.specs.Telling.{IsServeEnd, IsServeRefusal, ServedEnds, TellingEnds};
ghost use Rattle.cd_export.specs.Telling as telling;
ghost use Rattle.cd_export.specs.ExportText as spec;

use cd_base::{Memory, Sink};
use cd_cell::MOST_CELLS;
use cd_command::{Status, TopRefusal, print};
use cd_event::Refusal;
use cd_run::{Outcome, TaskRefusal};
use std::alloc::Global;
use std::fmt::Write;

/// The length of the text that was sent, and how many clients have got it and how many failed, a line each.
#[tactic(auto, unfolding(crate::specs::ExportText::export_text))]
fn export_text(alloc: Global, bytes: u64, done: u64, failed: u64) -> Result<String, Memory>
    ensures { IfOk result (λ text. string_bytes text ≡ spec.export_text bytes done failed) }
{
    let mut text = String::new(alloc);
    write!(text, "bytes {bytes}\ndone {done}\nfailed {failed}\n")?;
    Ok(text)
}

/// The status of a call whose serve was refused.
fn status_of(why: TaskRefusal) -> Status
    requires { IsServeRefusal why }
    ensures { result ≡ telling.status_of why }
{
    match why {
        TaskRefusal::UnknownBlock => Status::Refused(TopRefusal::Core(Refusal::UnknownBlock)),
        TaskRefusal::PinsFull => Status::Refused(TopRefusal::Core(Refusal::PinsFull)),
        TaskRefusal::TooMany => Status::Refused(TopRefusal::TooMany {
            limit: u64::from(MOST_CELLS),
        }),
        TaskRefusal::Keeper => Status::KeeperFault,
        _ => unreachable!(),
    }
}

/// Writes the lines of a serve that came to its end. Where a client failed that is the status, whatever the sink does.
fn tell_served<O: Sink>(alloc: Global, bytes: u64, done: u64, failed: u64, out: &mut O) -> Status
    ensures { ServedEnds O.Sink bytes done failed out.old out.new result }
{
    let Ok(text) = export_text(alloc, bytes, done, failed) else {
        return Status::Memory;
    };
    let printed = print(out, text.as_bytes());
    if failed > 0 {
        Status::ClientFault
    } else {
        printed
    }
}

/// Tells how a serve ended.
pub fn tell<O: Sink>(alloc: Global, answer: &Result<Outcome, Memory>, out: &mut O) -> Status
    requires { IsServeEnd answer.now }
    ensures { TellingEnds O.Sink answer.now out.old out.new result }
{
    match answer {
        Ok(
            Outcome::Serve {
                bytes,
                done,
                failed,
            },
        ) => tell_served(alloc, *bytes, *done, *failed, out),
        Ok(Outcome::Refused(why)) => status_of(*why),
        Ok(_) => unreachable!(),
        Err(_) => Status::Memory,
    }
}
