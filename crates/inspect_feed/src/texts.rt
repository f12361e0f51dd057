ghost use Rattle.std.specs.Prelude.{◌≡◌, ◌+◌, ◌++◌, length, codes, OnOk, IfOk, string_bytes};
ghost use Rattle.std.specs.Fmt.{decimal};
ghost use Rattle.cd_block.specs.Spelling.{id_text};
ghost use Rattle.inspect_feed.specs.FeedTexts.{said_text, task_line, worker_lines, phase_lines};
ghost use Rattle.inspect_feed.specs.FeedTexts.{phase_tasks, feed_tasks, feed_lines, TellsFeed};

use crate::reading::feed_of;
use cd_block::{BlockId, BlockIds, print_id};
use cd_feed::{Bytes, Feed, Phase, Task};
use inspect_lines::push_line;
use std::alloc::{AllocError, Global};
use std::fmt::Write;

/// A text with a name and an id behind it.
fn with_id(alloc: Global, mut text: String, name: &str, id: &BlockId) -> Result<String, AllocError>
    ensures { IfOk result (λ longer. string_bytes longer ≡ string_bytes text ++ name.now ++ id_text id.now) }
{
    let Ok(spelt) = print_id(alloc, id) else {
        return Err(AllocError);
    };
    text.push_str(name)?;
    text.push_str(&spelt)?;
    Ok(text)
}

/// A text with a name and a number behind it.
fn with_number(mut text: String, name: &str, number: usize) -> Result<String, AllocError>
    ensures { IfOk result (λ longer. string_bytes longer ≡ string_bytes text ++ name.now ++ decimal number) }
{
    text.push_str(name)?;
    write!(text, "{number}")?;
    Ok(text)
}

/// A text with the numbers of some tops and of the bytes of a bag behind it.
fn with_sizes(text: String, tops: &BlockIds, bag: &Bytes) -> Result<String, AllocError>
    ensures { IfOk result (λ longer. string_bytes longer
        ≡ string_bytes text ++ codes " tops " ++ decimal (length tops.now)
        ++ codes " bag " ++ decimal (length bag.now)) }
{
    with_number(with_number(text, " tops ", tops.len())?, " bag ", bag.len())
}

/// What a task is: its kind, its ids and its sizes.
fn said_of(alloc: Global, task: &Task) -> Result<String, AllocError>
    ensures { IfOk result (λ said. string_bytes said ≡ said_text task.now) }
{
    let none = String::new(alloc);
    match task {
        Task::Zero { id, tops, bag } => with_sizes(with_id(alloc, none, "zero ", id)?, tops, bag),
        Task::Block {
            id,
            parent,
            tops,
            bag,
        } => {
            let named = with_id(alloc, none, "block ", id)?;
            with_sizes(with_id(alloc, named, " parent ", parent)?, tops, bag)
        }
        Task::Expire { id } => with_id(alloc, none, "expire ", id),
        Task::Read { id, path } => {
            with_number(with_id(alloc, none, "read ", id)?, " path ", path.len())
        }
        Task::Slice { id, max } => {
            with_number(with_id(alloc, none, "slice ", id)?, " max ", *max as usize)
        }
        Task::Serve { id, max } => {
            with_number(with_id(alloc, none, "serve ", id)?, " max ", *max as usize)
        }
        Task::Merged {
            id,
            left,
            right,
            tops,
            bag,
        } => {
            let named = with_id(alloc, none, "merged ", id)?;
            let half = with_id(alloc, named, " left ", left)?;
            with_sizes(with_id(alloc, half, " right ", right)?, tops, bag)
        }
    }
}

/// The line of a task, which has the numbers of its phase, its worker and itself.
fn push_task(
    alloc: Global,
    text: &mut String,
    phase: usize,
    worker: usize,
    number: usize,
    task: &Task,
) -> Result<(), AllocError>
    ensures { OnOk result (string_bytes text.new
        ≡ string_bytes text.old ++ task_line phase worker number task.now) }
{
    let said = said_of(alloc, task)?;
    push_line(
        text,
        &format!(in alloc; "{phase}.{worker}.{number} {said}")?,
    )
}

/// The lines of the tasks of a worker.
fn push_worker(
    alloc: Global,
    text: &mut String,
    phase: usize,
    worker: usize,
    tasks: &[Task],
) -> Result<(), AllocError>
    ensures { OnOk result (string_bytes text.new
        ≡ string_bytes text.old ++ worker_lines phase worker tasks.now) }
{
    for (number, task) in tasks.iter().enumerate() {
        push_task(alloc, text, phase, worker, number, task)?;
    }
    Ok(())
}

/// The lines of the tasks of a phase.
fn push_phase(
    alloc: Global,
    text: &mut String,
    number: usize,
    phase: &Phase,
) -> Result<(), AllocError>
    ensures { OnOk result (string_bytes text.new ≡ string_bytes text.old ++ phase_lines number phase.now) }
{
    for (worker, tasks) in phase.workers.as_slice().iter().enumerate() {
        push_worker(alloc, text, number, worker, tasks.as_slice())?;
    }
    Ok(())
}

/// A number and one more, which count tasks: no memory could hold more than a number can count.
fn more_tasks(count: usize, more: usize) -> Result<usize, AllocError>
    ensures { IfOk result (λ all. all ≡ count + more) }
{
    count.checked_add(more).ok_or(AllocError)
}

/// How many tasks a phase has.
fn tasks_of_phase(phase: &Phase) -> Result<usize, AllocError>
    ensures { IfOk result (λ count. count ≡ phase_tasks phase.now) }
{
    let mut count = 0;
    for tasks in phase.workers.as_slice() {
        count = more_tasks(count, tasks.len())?;
    }
    Ok(count)
}

/// How many tasks a feed has.
fn tasks_of(feed: &Feed) -> Result<usize, AllocError>
    ensures { IfOk result (λ count. count ≡ feed_tasks feed.now) }
{
    let mut count = 0;
    for phase in feed.phases.as_slice() {
        count = more_tasks(count, tasks_of_phase(phase)?)?;
    }
    Ok(count)
}

/// The line of a feed, and a line for each of its tasks.
fn text_of(alloc: Global, feed: &Feed) -> Result<String, AllocError>
    ensures { IfOk result (λ text. string_bytes text ≡ feed_lines feed.now) }
{
    let phases = feed.phases.len();
    let tasks = tasks_of(feed)?;
    let mut text = format!(in alloc; "ok phases {phases} tasks {tasks}\n")?;
    for (number, phase) in feed.phases.as_slice().iter().enumerate() {
        push_phase(alloc, &mut text, number, phase)?;
    }
    Ok(text)
}

/// The line of a feed and those of its tasks; where the bytes are none, the first field at fault.
pub fn feed_text(alloc: Global, input: &[u8]) -> Result<String, AllocError>
    ensures { IfOk result (λ text. TellsFeed input.now (string_bytes text)) }
{
    match feed_of(alloc, input)? {
        Ok(feed) => text_of(alloc, &feed),
        Err(fault) => {
            let mut text = String::new(alloc);
            push_line(&mut text, &format!(in alloc; "{fault:?}")?)?;
            Ok(text)
        }
    }
}
