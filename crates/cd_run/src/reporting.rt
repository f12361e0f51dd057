//! The text of the report.
ghost use Rattle.std.specs.Prelude.{◌≡◌, ◌++◌, ◌≤◌, OnOk, IfOk, map, count_by, sum_by, string_bytes, length};
ghost use Rattle.std.specs.List.{AllByRecursion};
ghost use Rattle.cd_feed.specs.Feeds.{IsWorkerFit, IsPhaseFit, IsFeedFit};
ghost use Rattle.cd_run.specs.ReportText.{word_text, kind_text, end_text, name_text, line_text, worker_text, phase_text, phases_text, summary_text, totals_text};
ghost use Rattle.cd_run.specs.ReportText.{IsBeside, AreBeside, ends_of, is_so, count_phase, count_ends, report_text};

use crate::outcome::{Outcome, TaskRefusal};
use cd_base::Memory;
use cd_feed::{Feed, Phase, Task, Tasks};
use cd_world::Totals;
use std::alloc::Global;
use std::fmt::Write;

fn word(why: TaskRefusal) -> &'static str
    ensures { result.now ≡ word_text why }
{
    match why {
        TaskRefusal::Bag => "Bag",
        TaskRefusal::Roots => "Roots",
        TaskRefusal::Level => "Level",
        TaskRefusal::NotUpdate => "NotUpdate",
        TaskRefusal::OldHash => "OldHash",
        TaskRefusal::OldDepth => "OldDepth",
        TaskRefusal::OldHalf => "OldHalf",
        TaskRefusal::Foreign => "Foreign",
        TaskRefusal::NewClash => "NewClash",
        TaskRefusal::Known => "Known",
        TaskRefusal::Lineage => "Lineage",
        TaskRefusal::ZeroHash => "ZeroHash",
        TaskRefusal::Clash => "Clash",
        TaskRefusal::CountFull => "CountFull",
        TaskRefusal::UnknownBlock => "UnknownBlock",
        TaskRefusal::PinsFull => "PinsFull",
        TaskRefusal::NotMaster => "NotMaster",
        TaskRefusal::TopMissing => "TopMissing",
        TaskRefusal::NoChild => "NoChild",
        TaskRefusal::TooMany => "TooMany",
        TaskRefusal::Keeper => "Keeper",
        TaskRefusal::SplitDeep => "SplitDeep",
    }
}

fn kind(job: &Task) -> &'static str
    ensures { result.now ≡ kind_text job.now }
{
    match job {
        Task::Zero { .. } => "zero",
        Task::Block { .. } => "block",
        Task::Expire { .. } => "expire",
        Task::Read { .. } => "read",
        Task::Slice { .. } => "slice",
        Task::Serve { .. } => "serve",
        Task::Merged { .. } => "merge",
    }
}

/// What stands behind the kind.
#[tactic(auto, unfolding(crate::specs::ReportText::end_text))]
fn put_end(text: &mut String, end: &Outcome) -> Result<(), Memory>
    ensures { OnOk result (string_bytes text.new ≡ string_bytes text.old ++ end_text end.now) }
{
    match *end {
        Outcome::Zero { root, cells } => write!(text, " ok {root} cells {cells}")?,
        Outcome::Block { root, new } => write!(text, " ok {root} new {new}")?,
        Outcome::Expire { gone } => write!(text, " ok gone {gone}")?,
        Outcome::Read { hash } => write!(text, " ok {hash}")?,
        Outcome::Slice { bytes, slices, sha } => write!(
            text,
            " ok bytes {bytes} slices {slices} sha256 {sha}"
        )?,
        Outcome::Serve {
            bytes,
            done,
            failed,
        } => write!(text, " ok bytes {bytes} done {done} failed {failed}")?,
        Outcome::Merged { root, new } => write!(text, " ok {root} new {new}")?,
        Outcome::Refused(why) => {
            text.push_str(" refused ")?;
            text.push_str(word(why))?;
        }
    }
    Ok(())
}

/// The line of a task.
#[tactic(auto, unfolding(crate::specs::ReportText::name_text, crate::specs::ReportText::line_text))]
fn put_line(
    text: &mut String,
    phase: u64,
    worker: u64,
    n: u64,
    job: &Task,
    end: &Outcome,
) -> Result<(), Memory>
    ensures { OnOk result (string_bytes text.new
        ≡ string_bytes text.old ++ line_text phase worker n job.now end.now) }
{
    write!(text, "{phase}.{worker}.{n} ")?;
    text.push_str(kind(job))?;
    put_end(text, end)?;
    text.push_str("\n")?;
    Ok(())
}

fn put_worker(
    text: &mut String,
    phase: u64,
    worker: u64,
    jobs: &[Task],
    ends: &[Outcome],
) -> Result<(), Memory>
    requires { length ends.now ≡ length jobs.now }
    ensures { OnOk result (string_bytes text.new
        ≡ string_bytes text.old ++ worker_text phase worker 0 jobs.now ends.now) }
{
    for (n, job) in jobs.iter().enumerate() {
        put_line(text, phase, worker, n as u64, job, &ends[n])?;
    }
    Ok(())
}

fn put_phase(
    text: &mut String,
    phase: u64,
    workers: &[Tasks],
    ends: &[Vec<Outcome>],
) -> Result<(), Memory>
    requires { IsBeside workers.now ends.now }
    ensures { OnOk result (string_bytes text.new
        ≡ string_bytes text.old ++ phase_text phase 0 workers.now (map (λ w. w.items) ends.now)) }
{
    for (worker, jobs) in workers.iter().enumerate() {
        put_worker(
            text,
            phase,
            worker as u64,
            jobs.as_slice(),
            ends[worker].as_slice(),
        )?;
    }
    Ok(())
}

fn put_phases(text: &mut String, phases: &[Phase], ends: &[Vec<Vec<Outcome>>]) -> Result<(), Memory>
    requires { AreBeside phases.now ends.now }
    ensures { OnOk result (string_bytes text.new
        ≡ string_bytes text.old ++ phases_text 0 phases.now (ends_of ends.now)) }
{
    for (phase, p) in phases.iter().enumerate() {
        put_phase(
            text,
            phase as u64,
            p.workers.as_slice(),
            ends[phase].as_slice(),
        )?;
    }
    Ok(())
}

/// Whether a task was refused, or else whether it ended well.
fn is_so(refused: bool, end: &Outcome) -> bool
    ensures { result ≡ is_so refused end.now }
{
    match end {
        Outcome::Refused(_) => refused,
        _ => !refused,
    }
}

fn count_worker(refused: bool, ends: &[Outcome]) -> u64
    requires { length ends.now ≤ 4096 }
    ensures count { result ≡ count_by (is_so refused) ends.now }
    ensures few { result ≤ 4096 }
{
    let mut count = 0;
    for end in ends {
        if is_so(refused, end) {
            count += 1;
        }
    }
    count
}

fn count_phase(refused: bool, workers: &[Tasks], ends: &[Vec<Outcome>]) -> u64
    requires beside { IsBeside workers.now ends.now }
    requires few { length workers.now ≤ 16 }
    requires fit { AllByRecursion IsWorkerFit workers.now }
    ensures count { result ≡ count_phase (is_so refused) (map (λ w. w.items) ends.now) }
    ensures few { result ≤ 65536 }
{
    let mut count = 0;
    for (worker, _) in workers.iter().enumerate() {
        count += count_worker(refused, ends[worker].as_slice());
    }
    count
}

fn count_ends(refused: bool, phases: &[Phase], ends: &[Vec<Vec<Outcome>>]) -> u64
    requires beside { AreBeside phases.now ends.now }
    requires few { length phases.now ≤ 4096 }
    requires fit { AllByRecursion IsPhaseFit phases.now }
    ensures { result ≡ count_ends (is_so refused) (ends_of ends.now) }
{
    let mut count = 0;
    for (phase, p) in phases.iter().enumerate() {
        count += count_phase(refused, p.workers.as_slice(), ends[phase].as_slice());
    }
    count
}

/// The last lines.
#[tactic(auto, unfolding(crate::specs::ReportText::totals_text, crate::specs::ReportText::summary_text))]
fn put_summary(text: &mut String, totals: &Totals, done: u64, refused: u64) -> Result<(), Memory>
    ensures { OnOk result (string_bytes text.new
        ≡ string_bytes text.old ++ summary_text totals.now done refused) }
{
    let Totals {
        blocks,
        cells,
        counts,
    } = *totals;
    write!(text, "blocks {blocks}\ncells {cells}\ncounts {counts}")?;
    write!(text, "\ntasks {done} ok {refused} refused\n")?;
    Ok(())
}

/// The text of the report: a line for each task, by phase, worker and task, then the totals of the store, and how many
/// tasks ended well and were refused. `outcomes` has one outcome for each task in its place.
pub fn report(
    alloc: Global,
    feed: &Feed,
    outcomes: &[Vec<Vec<Outcome>>],
    totals: &Totals,
) -> Result<String, Memory>
    requires fit { IsFeedFit feed.now }
    requires beside { AreBeside feed.now.phases outcomes.now }
    ensures { IfOk result (λ text.
        string_bytes text ≡ report_text feed.now (ends_of outcomes.now) totals.now) }
{
    let phases = feed.phases.as_slice();
    let done = count_ends(false, phases, outcomes);
    let refused = count_ends(true, phases, outcomes);
    let mut text = String::new(alloc);
    put_phases(&mut text, phases, outcomes)?;
    put_summary(&mut text, totals, done, refused)?;
    Ok(text)
}
