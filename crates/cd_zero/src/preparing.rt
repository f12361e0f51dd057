//! The state that the input's bytes are a bag of.
ghost use Rattle.std.specs.Prelude.{◌≡◌, IfOk, IfErr};
ghost use Rattle.cd_cell.specs.Tree.{Tree};
ghost use Rattle.cd_zero.specs.Zero.{IsListOf, IsStateFault, status_of};
ghost use Rattle.cd_zero.specs.ZeroCall.{IsStateBag, IsRefusal};

use cd_boc_read::{BagFault, read_bag};
use cd_cell::{Hash32, Prepared};
use cd_command::{InputFault, Status, TopRefusal};
use cd_prepare::{PrepareFault, prepare_zero};
use std::alloc::Global;

/// The status of a call over a bag that is no state's.
fn refusal_of(fault: &PrepareFault) -> Status
    requires { IsStateFault fault.now }
    ensures { result ≡ status_of fault.now }
{
    match fault {
        PrepareFault::Roots { roots } => Status::Refused(TopRefusal::Roots { roots: *roots }),
        PrepareFault::Level { mask } => Status::Refused(TopRefusal::Level { mask: *mask }),
        PrepareFault::Memory => Status::Memory,
        _ => unreachable!(),
    }
}

/// The value of the state that these bytes are a bag of, or the status of a call over bytes that are no such bag. The
/// bytes are given up once they are read, and the bag once it is listed.
pub fn prepared_of<H: Hash32>(alloc: Global, bytes: Vec<u8>) -> Result<Prepared<H>, Status>
    ensures found { IfOk result (λ value. (state : Tree)
        × IsStateBag H.digest_of bytes.items state × IsListOf H.digest_of state value) }
    ensures refused { IfErr result (IsRefusal H.digest_of bytes.items) }
{
    let read = read_bag::<H>(alloc, &bytes);
    drop(bytes);
    let bag = match read {
        Ok(bag) => bag,
        Err(BagFault::Memory) => return Err(Status::Memory),
        Err(fault) => return Err(Status::BadInput(InputFault::Bag(fault))),
    };
    match prepare_zero(alloc, &bag) {
        Ok(value) => Ok(value),
        Err(fault) => Err(refusal_of(&fault)),
    }
}
