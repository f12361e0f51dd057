ghost use Rattle.cd_zero.specs.ZeroCall.{ZeroEnds};

use crate::name::ZeroName;
use crate::preparing::prepared_of;
use crate::storing::store;
use cd_base::{Sink, Source};
use cd_cell::Hash32;
use cd_command::{Finished, read_input};
use cd_keeper::Keeper;
use std::alloc::Global;

/// The command `zero`: reads a bag of cells to the end of the input, opens the store, stores the bag's state as a zero
/// state of this name in one batch, and writes the block's name and the number of its cells. Nothing is opened before the
/// input is found good.
pub fn zero<S: Source, O: Sink, K: Keeper, H: Hash32>(
    alloc: Global,
    name: ZeroName,
    input: &mut S,
    out: &mut O,
    keeper: K,
) -> Finished<K, H>
    ensures { ZeroEnds H.digest_of S.Source O.Sink K.Keeper name input.old input.new out.old out.new
        keeper result.keeper result.journal.items result.status }
{
    let bytes = match read_input(alloc, input) {
        Ok(bytes) => bytes,
        Err(status) => return Finished::of(alloc, status, keeper),
    };
    match prepared_of::<H>(alloc, bytes) {
        Ok(prepared) => store(alloc, name, prepared, out, keeper),
        Err(status) => Finished::of(alloc, status, keeper),
    }
}
