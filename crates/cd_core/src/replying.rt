//! The reply in the journal to each answer of a call.
ghost use Rattle.std.specs.Prelude.{◌≡◌};
ghost use Rattle.cd_event.specs.Replies as spec;

use cd_cell::Face;
use cd_event::{
    ExpireFault, LookFault, MergeFault, PinFault, Pinned, Refusal, Reply, Stored, UnpinFault,
    ZeroFault,
};

pub(crate) fn pin_reply(answer: &Result<Pinned, PinFault>) -> Option<Reply>
    ensures { result ≡ spec.pin_reply answer.now }
{
    let fault = match answer {
        Ok(pinned) => return Some(Reply::Pinned { pin: pinned.pin }),
        Err(fault) => fault,
    };
    let refusal = match fault {
        PinFault::UnknownBlock => Refusal::UnknownBlock,
        PinFault::PinsFull => Refusal::PinsFull,
        PinFault::Memory => return None,
    };
    Some(Reply::Refused(refusal))
}

pub(crate) fn look_reply(answer: &Result<Vec<Option<Face>>, LookFault>) -> Option<Reply>
    ensures { result ≡ spec.look_reply answer.now }
{
    match answer {
        Ok(_) => Some(Reply::Looked),
        Err(LookFault::NoPin) => Some(Reply::Refused(Refusal::NoPin)),
        Err(LookFault::Keeper) => Some(Reply::Refused(Refusal::Keeper)),
        Err(LookFault::Memory) => None,
    }
}

pub(crate) fn unpin_reply(answer: &Result<bool, UnpinFault>) -> Option<Reply>
    ensures { result ≡ spec.unpin_reply answer.now }
{
    match answer {
        Ok(collected) => Some(Reply::Unpinned {
            collected: *collected,
        }),
        Err(UnpinFault::NoPin) => Some(Reply::Refused(Refusal::NoPin)),
        Err(UnpinFault::Keeper) => Some(Reply::Refused(Refusal::Keeper)),
        Err(UnpinFault::Memory) => None,
    }
}

pub(crate) fn expire_reply(answer: &Result<u64, ExpireFault>) -> Option<Reply>
    ensures { result ≡ spec.expire_reply answer.now }
{
    let fault = match answer {
        Ok(gone) => return Some(Reply::Expired { gone: *gone }),
        Err(fault) => fault,
    };
    let refusal = match fault {
        ExpireFault::UnknownBlock => Refusal::UnknownBlock,
        ExpireFault::NotMaster => Refusal::NotMaster,
        ExpireFault::TopMissing { top } => Refusal::TopMissing { top: *top },
        ExpireFault::Keeper => Refusal::Keeper,
        ExpireFault::Memory => return None,
    };
    Some(Reply::Refused(refusal))
}

pub(crate) fn zero_reply(answer: &Result<Stored, ZeroFault>) -> Option<Reply>
    ensures { result ≡ spec.zero_reply answer.now }
{
    let fault = match answer {
        Ok(_) => return Some(Reply::Stored),
        Err(fault) => fault,
    };
    let refusal = match fault {
        ZeroFault::Known => Refusal::Known,
        ZeroFault::Lineage(fault) => Refusal::Lineage(*fault),
        ZeroFault::ZeroHash { stated, real } => Refusal::ZeroHash {
            stated: *stated,
            real: *real,
        },
        ZeroFault::Clash {
            hash,
            stored,
            offered,
        } => Refusal::Clash {
            hash: *hash,
            stored: *stored,
            offered: *offered,
        },
        ZeroFault::CountFull { hash, count } => Refusal::CountFull {
            hash: *hash,
            count: *count,
        },
        ZeroFault::Keeper => Refusal::Keeper,
        ZeroFault::Memory => return None,
    };
    Some(Reply::Refused(refusal))
}

pub(crate) fn merge_reply(answer: &Result<Stored, MergeFault>) -> Option<Reply>
    ensures { result ≡ spec.merge_reply answer.now }
{
    let fault = match answer {
        Ok(_) => return Some(Reply::Stored),
        Err(fault) => fault,
    };
    let refusal = match fault {
        MergeFault::NoPin => Refusal::NoPin,
        MergeFault::WrongPin => Refusal::WrongPin,
        MergeFault::Known => Refusal::Known,
        MergeFault::Lineage(fault) => Refusal::Lineage(*fault),
        MergeFault::Clash {
            hash,
            stored,
            offered,
        } => Refusal::Clash {
            hash: *hash,
            stored: *stored,
            offered: *offered,
        },
        MergeFault::CountFull { hash, count } => Refusal::CountFull {
            hash: *hash,
            count: *count,
        },
        MergeFault::Keeper => Refusal::Keeper,
        MergeFault::Memory => return None,
    };
    Some(Reply::Refused(refusal))
}
