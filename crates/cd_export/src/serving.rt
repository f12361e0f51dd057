//! A block's state is served on an opened core.
ghost use Rattle.std.specs.Prelude.{◌≡◌, ◌≤◌, []};
ghost use Rattle.cd_core.specs.Cores.{IsCore};
ghost use Rattle.cd_export.specs.Serving.{ServedOn, ServesOn};
ghost use Rattle.cd_export.specs.Telling.{IsServeEnd};
ghost use Rattle.cd_fan.specs.Fans.{HaveGotBytes};

use cd_base::Memory;
use cd_block::BlockId;
use cd_cell::Hash32;
use cd_command::FIRST_TASK;
use cd_core::{Core, OneThread};
use cd_event::Entry;
use cd_fan::{Client, SliceClient};
use cd_feed::Task;
use cd_keeper::Keeper;
use cd_run::{NoHoldup, Outcome, do_task};
use cd_slices::MOST_SLICE;
use std::alloc::Global;

/// How a serve ended, and what it left of a core.
pub struct Served<K, H: Hash32> {
    pub answer: Result<Outcome, Memory>,
    pub keeper: K,
    pub journal: Vec<Entry<H>>,
}

/// Serves a block's state by the turns of the first worker.
fn serve_in_turns<'a, K: Keeper, H: Hash32>(
    alloc: Global,
    turns: &mut OneThread<'a, K, H>,
    id: BlockId,
    max: u32,
    clients: &mut Vec<Client>,
) -> Result<Outcome, Memory>
    requires worker { turns.old.worker ≡ 0 }
    requires opened { turns.old.core.now.journal ≡ [] }
    requires some { 1 ≤ max }
    requires most { max ≤ MOST_SLICE }
    requires fresh { HaveGotBytes (λ c. got c) 0 clients.old.items }
    ensures same { turns.new.core.ghost_name ≡ turns.old.core.ghost_name }
    ensures served { ServedOn H.digest_of K.held K.faults id max turns.old.core.now turns.new.core.now result }
    ensures clients { ServesOn (λ c. got c) (λ c. steady c) H.digest_of K.held turns.new.core.now
        clients.old.items clients.new.items result }
{
    let task = Task::Serve { id, max };
    do_task(alloc, turns, FIRST_TASK, &task, clients, &NoHoldup)
}

/// Serves a block's state on a core.
fn serve_on<K: Keeper, H: Hash32>(
    alloc: Global,
    core: &mut Core<K, H>,
    id: BlockId,
    max: u32,
    clients: &mut Vec<Client>,
) -> Result<Outcome, Memory>
    requires opened { core.old.journal ≡ [] }
    requires some { 1 ≤ max }
    requires most { max ≤ MOST_SLICE }
    requires fresh { HaveGotBytes (λ c. got c) 0 clients.old.items }
    ensures served { ServedOn H.digest_of K.held K.faults id max core.old core.new result }
    ensures clients { ServesOn (λ c. got c) (λ c. steady c) H.digest_of K.held core.new
        clients.old.items clients.new.items result }
{
    let mut turns = OneThread::new(core, FIRST_TASK.worker);
    serve_in_turns(alloc, &mut turns, id, max, clients)
}

/// Serves a block's state on an opened core, and ends the core.
pub fn serve<K: Keeper, H: Hash32>(
    alloc: Global,
    mut core: Core<K, H>,
    id: BlockId,
    max: u32,
    clients: &mut Vec<Client>,
) -> Served<K, H>
    requires opened { core.journal ≡ [] }
    requires some { 1 ≤ max }
    requires most { max ≤ MOST_SLICE }
    requires fresh { HaveGotBytes (λ c. got c) 0 clients.old.items }
    ensures served { ServedOn H.digest_of K.held K.faults id max core
        (record { start = core.start; journal = result.journal.items; keeper = result.keeper }) result.answer }
    ensures end { IsServeEnd result.answer }
    ensures kept { IsCore K.held H.digest_of K.trail K.batches K.faults
        core.start result.journal.items result.keeper }
    ensures clients { ServesOn (λ c. got c) (λ c. steady c) H.digest_of K.held
        (record { start = core.start; journal = result.journal.items; keeper = result.keeper })
        clients.old.items clients.new.items result.answer }
{
    let answer = serve_on(alloc, &mut core, id, max, clients);
    let (keeper, journal) = core.close();
    Served {
        answer,
        keeper,
        journal,
    }
}
