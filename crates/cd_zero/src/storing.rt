//! A prepared state is stored, and its text is written.
ghost use Rattle.std.specs.Prelude.{◌≡◌, []};
ghost use Rattle.cd_cell.specs.Listings.{Fits};
ghost use Rattle.cd_cell.specs.Tree.{Tree};
ghost use Rattle.cd_event.specs.declared.event.Event.TheVariants.{Zero};
ghost use Rattle.cd_event.specs.Replies.{entries_of, zero_refusal, zero_reply};
ghost use Rattle.cd_event.specs.Turning.{is_keeper, RisesOnly};
ghost use Rattle.cd_core.specs.Cores.{IsCore};
ghost use Rattle.cd_command.specs.Naming.{first_task};
ghost use Rattle.cd_zero.specs.Zero.{status_by_store, IsListOf};
ghost use Rattle.cd_zero.specs.Storing.{TellingEnds};
ghost use Rattle.cd_zero.specs.ZeroCall.{StoringEnds};

use crate::name::{ZeroName, block_text, id_of};
use cd_base::Sink;
use cd_block::{BlockId, BlockIds};
use cd_cell::{Hash32, Prepared};
use cd_command::{FIRST_TASK, Finished, Status, TopRefusal, open_store, print};
use cd_core::Core;
use cd_event::{Entry, Refusal, Stored, ZeroFault};
use cd_keeper::Keeper;
use std::alloc::Global;

/// What a core answered to one state, and what it left.
struct Taken<K, H: Hash32> {
    answer: Result<Stored, ZeroFault>,
    keeper: K,
    journal: Vec<Entry<H>>,
}

/// Hands a state to an opened core, and ends the core.
fn take<K: Keeper, H: Hash32>(
    alloc: Global,
    mut core: Core<K, H>,
    id: BlockId,
    prepared: Prepared<H>,
) -> Taken<K, H>
    requires opened { core.journal ≡ [] }
    requires whole { Fits H.digest_of prepared.root prepared.cells [] }
    ensures entry { result.journal.items
        ≡ entries_of first_task (Zero id [] prepared) (zero_reply result.answer) }
    ensures kept { IsCore K.held H.digest_of K.trail K.batches K.faults
        core.start result.journal.items result.keeper }
    ensures cause { RisesOnly (is_keeper (zero_reply result.answer)) (K.faults core.keeper) (K.faults result.keeper) }
{
    let tops = BlockIds::from(Vec::new(alloc));
    let answer = core.zero(FIRST_TASK, id, tops, prepared);
    let (keeper, journal) = core.close();
    Taken {
        answer,
        keeper,
        journal,
    }
}

/// The status of a call over a state that isn't stored.
fn status_of(fault: &ZeroFault) -> Status
    ensures { result ≡ status_by_store (zero_refusal fault.now) }
{
    let refusal = match fault {
        ZeroFault::Known => Refusal::Known,
        ZeroFault::Lineage(fault) => Refusal::Lineage(*fault),
        ZeroFault::ZeroHash { stated, real } => Refusal::ZeroHash {
            stated: *stated,
            real: *real,
        },
        ZeroFault::Clash {
            hash,
            stored,
            offered,
        } => Refusal::Clash {
            hash: *hash,
            stored: *stored,
            offered: *offered,
        },
        ZeroFault::CountFull { hash, count } => Refusal::CountFull {
            hash: *hash,
            count: *count,
        },
        ZeroFault::Keeper => return Status::KeeperFault,
        ZeroFault::Memory => return Status::Memory,
    };
    Status::Refused(TopRefusal::Core(refusal))
}

/// Writes the text of a stored state. Of one that isn't stored the status tells why.
fn tell<O: Sink>(answer: &Result<Stored, ZeroFault>, out: &mut O, text: &str) -> Status
    ensures { TellingEnds O.Sink text.now answer.now out.old out.new result }
{
    match answer {
        Ok(_) => print(out, text.as_bytes()),
        Err(fault) => status_of(fault),
    }
}

/// Stores a state as the zero state of this name, and writes the block's name and the number of its cells. The text is
/// made first, so want of memory never follows a stored block.
pub fn store<O: Sink, K: Keeper, H: Hash32>(
    alloc: Global,
    name: ZeroName,
    prepared: Prepared<H>,
    out: &mut O,
    keeper: K,
) -> Finished<K, H>
    requires whole { Fits H.digest_of prepared.root prepared.cells [] }
    ensures { (state : Tree) → IsListOf H.digest_of state prepared
        → StoringEnds H.digest_of K.Keeper name state O.Sink result.journal.items
        out.old out.new keeper result.keeper result.status }
{
    let id = id_of(name, prepared.root().rep());
    let Ok(text) = block_text(alloc, &id, prepared.cells().len()) else {
        return Finished::of(alloc, Status::Memory, keeper);
    };
    let core = match open_store::<K, H>(alloc, keeper) {
        Ok(core) => core,
        Err(ended) => return ended,
    };
    let Taken {
        answer,
        keeper,
        journal,
    } = take(alloc, core, id, prepared);
    Finished {
        status: tell(&answer, out, &text),
        keeper,
        journal,
    }
}
