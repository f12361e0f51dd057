ghost use Rattle.std.specs.Prelude.{◌≤◌};
ghost use Rattle.cd_export.specs.ExportCall.{ExportEnds};
ghost use Rattle.cd_fan.specs.Fans.{HaveGotBytes};

use crate::serving::{Served, serve};
use crate::telling::tell;
use cd_base::Sink;
use cd_block::BlockId;
use cd_cell::Hash32;
use cd_command::{Finished, open_store};
use cd_fan::{Client, SliceClient};
use cd_keeper::Keeper;
use cd_slices::MOST_SLICE;
use std::alloc::Global;

/// The command `export`: opens the store, pins the block of this id, sends the bag of its state to the clients in pieces of
/// at most `max` bytes, ends the pin, and writes the length of the bag, and how many clients have got it and how many failed,
/// a line each. A client that fails is taken out of the list.
pub fn export<O: Sink, K: Keeper, H: Hash32>(
    alloc: Global,
    id: BlockId,
    max: u32,
    out: &mut O,
    keeper: K,
    clients: &mut Vec<Client>,
) -> Finished<K, H>
    requires some { 1 ≤ max }
    requires most { max ≤ MOST_SLICE }
    requires fresh { HaveGotBytes (λ c. got c) 0 clients.old.items }
    ensures { ExportEnds H.digest_of K.Keeper O.Sink (λ c. got c) (λ c. steady c) id out.old out.new
        keeper result.keeper clients.old.items clients.new.items result.journal.items result.status }
{
    let core = match open_store::<K, H>(alloc, keeper) {
        Ok(core) => core,
        Err(ended) => return ended,
    };
    let Served {
        answer,
        keeper,
        journal,
    } = serve(alloc, core, id, max, clients);
    Finished {
        status: tell(alloc, &answer, out),
        keeper,
        journal,
    }
}
