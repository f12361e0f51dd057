//! The core, and what it keeps.
ghost use Rattle.std.specs.Prelude.{◌≡◌, ◌≤◌, ◌++◌, ◌∷◌, [], List, All, AllPairs, length, ◌<◌, ◌^◌, IfSome, OnOk, OnErr};
ghost use Rattle.cd_block.specs.Description.{IsDescrFit};
ghost use Rattle.cd_record.specs.declared.limits.TheConstants.{GREATEST_COUNT};
ghost use Rattle.cd_event.specs.declared.entry.Entry.{Entry};
ghost use Rattle.cd_event.specs.Replies.{entries_of};
ghost use Rattle.cd_world.specs.Standing.{IsBeforeBlock};
ghost use Rattle.cd_world.specs.Unfolded.{told_in};
ghost use Rattle.cd_count.specs.SoundContents.{AreSoundContents};
ghost use Rattle.cd_core.specs.Cores.{IsCore, opened, world_of};

use crate::knowing::know_blocks;
use crate::start::CoreStart;
use cd_base::Memory;
use cd_block::Descr;
use cd_cell::Hash32;
use cd_event::{Entry, Event, Journal, Refusal, Reply, Who};
use cd_keeper::Keeper;
use cd_world::{Rows, World};
use std::alloc::Global;
use std::marker::Model;
use std::snapshot::Snapshot;

/// The store on one thread: a keeper, the world that it holds, and a journal of all events since the start.
#[derive(Drop)]
pub struct Core<K: Keeper, H: Hash32> {
    pub(crate) keeper: K,
    pub(crate) world: World,
    pub(crate) journal: Journal<H>,
    pub(crate) start: CoreStart<K>,
    pub(crate) alloc: Global,
}

impl<K: Keeper, H: Hash32> Model for Core<K, H> {
    ghost use Rattle.std.specs.Prelude.{◌≡◌};
    ghost use Rattle.cd_core.specs.Cores.{CoreView, IsCore, world_after};

    ghost Value = { CoreView K H };

    ghost view = { λ c. record { start = c.start; journal = c.journal; keeper = c.keeper } };

    ghost invariant = { λ c. (c.world ≡ world_after c.start c.journal)
        × IsCore K.held H.digest_of K.trail K.batches K.faults c.start c.journal c.keeper };
}

impl<K: Keeper, H: Hash32> Core<K, H> {
    /// Takes a keeper over with the blocks that it holds. The blocks stand in the order of their ids, each id once. Where
    /// the keeper tells what it holds, that is the contents of a sound world of these blocks. Takes no memory.
    pub fn adopt(alloc: Global, keeper: K, blocks: Vec<Descr>, limit: u64) -> Core<K, H>
        requires ordered { AllPairs IsBeforeBlock blocks.items }
        requires fit { All IsDescrFit blocks.items }
        requires limit { (1 ≤ limit) × (limit ≤ GREATEST_COUNT) }
        requires told { IfSome (K.held keeper) (λ contents.
            AreSoundContents H.digest_of (told_in contents (opened blocks.items)) contents) }
        ensures world { result.start.world.value ≡ opened blocks.items }
        ensures keeper { (result.start.keeper.value ≡ keeper) × (result.keeper ≡ keeper) }
        ensures limit { result.start.limit ≡ limit }
        ensures journal { result.journal ≡ [] }
    {
        know_blocks(blocks.as_slice());
        let world = World {
            blocks: Rows::from(blocks),
            pins: Rows::new(alloc),
            next: 0,
        };
        let start = CoreStart {
            world: Snapshot::of(&world),
            keeper: Snapshot::of(&keeper),
            limit,
        };
        Core {
            keeper,
            world,
            journal: Journal::new(alloc),
            start,
            alloc,
        }
    }

    /// The blocks and the pins.
    pub fn world(&self) -> &World
        ensures { result.now ≡ world_of self.now }
    {
        &self.world
    }

    /// The entries so far, the oldest first. They lead from the start to what the keeper holds.
    pub fn journal(&self) -> &[Entry<H>]
        ensures value { result.now ≡ self.now.journal }
        ensures kept { IsCore K.held H.digest_of K.trail K.batches K.faults
            self.now.start self.now.journal self.now.keeper }
    {
        self.journal.as_slice()
    }

    /// Gives back the keeper, with the entries.
    pub fn close(self) -> (K, Vec<Entry<H>>)
        ensures keeper { result.0 ≡ self.keeper }
        ensures journal { result.1.items ≡ self.journal }
        ensures kept { IsCore K.held H.digest_of K.trail K.batches K.faults
            self.start self.journal self.keeper }
    {
        (self.keeper, self.journal.into_vec())
    }
}

/// Makes room for an entry, before anything is done.
pub(crate) fn make_room<H: Hash32>(journal: &mut Journal<H>, who: Who) -> Result<(), Memory>
    ensures ok { OnOk result ((room : Entry H) × (journal.new ≡ journal.old ++ room ∷ [])) }
    ensures fits { OnOk result (length journal.new < 2 ^ 64) }
    ensures err { OnErr result (journal.new ≡ journal.old) }
{
    journal.push(Entry {
        who,
        event: Event::Look { pin: 0, asked: 0 },
        reply: Reply::Refused(Refusal::NoPin),
    })
}

/// Puts an event with its reply into the room that was made, or gives the room up where there is no reply.
pub(crate) fn note<H: Hash32>(
    journal: &mut Journal<H>,
    who: Who,
    event: Event<H>,
    reply: Option<Reply>,
)
    ensures { (front : List (Entry H)) (room : Entry H) → journal.old ≡ front ++ room ∷ []
        → journal.new ≡ front ++ entries_of who event reply }
{
    match reply {
        Some(reply) => journal.put_last(Entry { who, event, reply }),
        None => journal.take_back(),
    }
}
