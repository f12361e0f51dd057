//! The core's calls as what one turn does. Each tells what the call tells, and how many entries there are after it.
ghost use Rattle.std.specs.Prelude.{◌≡◌, length};
ghost use Rattle.cd_core.specs.Cores.{IsCore};

use crate::held_core::HeldCore;
use cd_base::Hash256;
use cd_block::{BlockId, BlockIds};
use cd_cell::{Face, Hash32, Prepared};
use cd_core::Core;
use cd_event::{
    ExpireFault, LookFault, MergeFault, PinFault, Pinned, Stored, UnpinFault, Who, ZeroFault,
};
use cd_gate::Deed;
use cd_keeper::Keeper;

/// How many entries there are. It tells a caller's proof what the core keeps.
fn count_entries<K: Keeper, H: Hash32>(core: &Core<K, H>) -> u64
    ensures count { result ≡ length core.now.journal }
    ensures kept { IsCore K.held H.digest_of K.trail K.batches K.faults
        core.now.start core.now.journal core.now.keeper }
{
    core.journal().len() as u64
}

/// A block is pinned.
#[derive(Drop)]
pub(crate) struct PinDeed {
    pub who: Who,
    pub id: BlockId,
}

impl<K: Keeper, H: Hash32> Deed<HeldCore<K, H>> for PinDeed {
    ghost use Rattle.std.specs.Prelude.{◌≡◌, length, IfOk};
    ghost use Rattle.cd_event.specs.declared.event.Event.TheVariants.{Pin};
    ghost use Rattle.cd_event.specs.Replies.{pin_reply};
    ghost use Rattle.cd_core.specs.Effects.{IsPinOf};
    ghost use Rattle.cd_shared.specs.SharedTurns.{IsCoreTurn};

    type Answer = (Result<Pinned, PinFault>, u64);

    ghost by = { λ d. d.who.worker };

    ghost may = { λ d start before. Unit {0} };

    ghost did = { λ d start before answer after.
        IsCoreTurn K.held H.digest_of K.trail K.batches K.faults start before d.who (Pin d.id)
        (pin_reply answer.0) after
        × IfOk answer.0 (IsPinOf K.held H.digest_of start before d.id)
        × (answer.1 ≡ length after) };

    fn act(self, value: &mut HeldCore<K, H>) -> (Result<Pinned, PinFault>, u64) {
        count_entries(&value.core);
        let answer = value.core.pin(self.who, self.id);
        (answer, count_entries(&value.core))
    }
}

/// Cells are looked up under a pin.
#[derive(Drop)]
pub(crate) struct LookDeed<'a> {
    pub who: Who,
    pub pin: u64,
    pub hashes: &'a [Hash256],
}

impl<'a, K: Keeper, H: Hash32> Deed<HeldCore<K, H>> for LookDeed<'a> {
    ghost use Rattle.std.specs.Prelude.{◌≡◌, ◌≤◌, length, IfOk};
    ghost use Rattle.cd_event.specs.declared.event.Event.TheVariants.{Look};
    ghost use Rattle.cd_event.specs.Replies.{look_reply};
    ghost use Rattle.cd_event.specs.Turning.{AreGood};
    ghost use Rattle.cd_core.specs.Effects.{AreSeen};
    ghost use Rattle.cd_shared.specs.SharedTurns.{IsCoreTurn};

    type Answer = (Result<Vec<Option<Face>>, LookFault>, u64);

    ghost by = { λ d. d.who.worker };

    ghost may = { λ d start before. length d.hashes.now ≤ 256 };

    ghost did = { λ d start before answer after.
        IsCoreTurn K.held H.digest_of K.trail K.batches K.faults start before d.who
        (Look d.pin (length d.hashes.now)) (look_reply answer.0) after
        × IfOk answer.0 (λ found. length found.items ≡ length d.hashes.now)
        × IfOk answer.0 (λ found. AreGood found.items)
        × IfOk answer.0 (λ found. AreSeen K.held H.digest_of start before d.hashes.now found.items)
        × (answer.1 ≡ length after) };

    fn act(self, value: &mut HeldCore<K, H>) -> (Result<Vec<Option<Face>>, LookFault>, u64) {
        count_entries(&value.core);
        let answer = value.core.look(self.who, self.pin, self.hashes);
        (answer, count_entries(&value.core))
    }
}

/// A pin ends.
#[derive(Drop)]
pub(crate) struct UnpinDeed {
    pub who: Who,
    pub pin: u64,
}

impl<K: Keeper, H: Hash32> Deed<HeldCore<K, H>> for UnpinDeed {
    ghost use Rattle.std.specs.Prelude.{◌≡◌, length};
    ghost use Rattle.cd_event.specs.declared.event.Event.TheVariants.{Unpin};
    ghost use Rattle.cd_event.specs.Replies.{unpin_reply};
    ghost use Rattle.cd_shared.specs.SharedTurns.{IsCoreTurn};

    type Answer = (Result<bool, UnpinFault>, u64);

    ghost by = { λ d. d.who.worker };

    ghost may = { λ d start before. Unit {0} };

    ghost did = { λ d start before answer after.
        IsCoreTurn K.held H.digest_of K.trail K.batches K.faults start before d.who (Unpin d.pin)
        (unpin_reply answer.0) after
        × (answer.1 ≡ length after) };

    fn act(self, value: &mut HeldCore<K, H>) -> (Result<bool, UnpinFault>, u64) {
        count_entries(&value.core);
        let answer = value.core.unpin(self.who, self.pin);
        (answer, count_entries(&value.core))
    }
}

/// What a masterchain block has passed goes.
#[derive(Drop)]
pub(crate) struct ExpireDeed {
    pub who: Who,
    pub id: BlockId,
}

impl<K: Keeper, H: Hash32> Deed<HeldCore<K, H>> for ExpireDeed {
    ghost use Rattle.std.specs.Prelude.{◌≡◌, length};
    ghost use Rattle.cd_event.specs.declared.event.Event.TheVariants.{Expire};
    ghost use Rattle.cd_event.specs.Replies.{expire_reply};
    ghost use Rattle.cd_shared.specs.SharedTurns.{IsCoreTurn};

    type Answer = (Result<u64, ExpireFault>, u64);

    ghost by = { λ d. d.who.worker };

    ghost may = { λ d start before. Unit {0} };

    ghost did = { λ d start before answer after.
        IsCoreTurn K.held H.digest_of K.trail K.batches K.faults start before d.who (Expire d.id)
        (expire_reply answer.0) after
        × (answer.1 ≡ length after) };

    fn act(self, value: &mut HeldCore<K, H>) -> (Result<u64, ExpireFault>, u64) {
        count_entries(&value.core);
        let answer = value.core.expire(self.who, self.id);
        (answer, count_entries(&value.core))
    }
}

/// A zero state is stored.
#[derive(Drop)]
pub(crate) struct ZeroDeed<H: Hash32> {
    pub who: Who,
    pub id: BlockId,
    pub tops: BlockIds,
    pub prepared: Prepared<H>,
}

impl<K: Keeper, H: Hash32> Deed<HeldCore<K, H>> for ZeroDeed<H> {
    ghost use Rattle.std.specs.Prelude.{◌≡◌, [], length, IfOk};
    ghost use Rattle.cd_cell.specs.Listings.{Fits};
    ghost use Rattle.cd_event.specs.declared.event.Event.TheVariants.{Zero};
    ghost use Rattle.cd_event.specs.Replies.{zero_reply};
    ghost use Rattle.cd_event.specs.Turning.{MayName, IsStored};
    ghost use Rattle.cd_shared.specs.SharedTurns.{IsCoreTurn};

    type Answer = (Result<Stored, ZeroFault>, u64);

    ghost by = { λ d. d.who.worker };

    ghost may = { λ d start before. MayName d.id d.tops
        × Fits H.digest_of d.prepared.root d.prepared.cells [] };

    ghost did = { λ d start before answer after.
        IsCoreTurn K.held H.digest_of K.trail K.batches K.faults start before d.who
        (Zero d.id d.tops d.prepared) (zero_reply answer.0) after
        × IfOk answer.0 (IsStored d.prepared)
        × (answer.1 ≡ length after) };

    fn act(self, value: &mut HeldCore<K, H>) -> (Result<Stored, ZeroFault>, u64) {
        let ZeroDeed {
            who,
            id,
            tops,
            prepared,
        } = self;
        count_entries(&value.core);
        let answer = value.core.zero(who, id, tops, prepared);
        (answer, count_entries(&value.core))
    }
}

/// A block is stored over one pinned parent or two.
#[derive(Drop)]
pub(crate) struct MergeDeed<H: Hash32> {
    pub who: Who,
    pub pin: u64,
    pub other: Option<u64>,
    pub id: BlockId,
    pub tops: BlockIds,
    pub prepared: Prepared<H>,
}

impl<K: Keeper, H: Hash32> Deed<HeldCore<K, H>> for MergeDeed<H> {
    ghost use Rattle.std.specs.Prelude.{◌≡◌, length, IfOk};
    ghost use Rattle.cd_event.specs.declared.event.Event.TheVariants.{Merge};
    ghost use Rattle.cd_event.specs.Replies.{merge_reply};
    ghost use Rattle.cd_event.specs.Turning.{MayName, IsStored};
    ghost use Rattle.cd_core.specs.Effects.{MayStoreOver};
    ghost use Rattle.cd_shared.specs.SharedTurns.{IsCoreTurn, IsJournal};

    type Answer = (Result<Stored, MergeFault>, u64);

    ghost by = { λ d. d.who.worker };

    ghost may = { λ d start before. MayName d.id d.tops
        × (IsJournal K.held H.digest_of K.trail K.batches K.faults start before
        → MayStoreOver K.held H.digest_of start before d.who.worker d.pin d.other d.prepared) };

    ghost did = { λ d start before answer after.
        IsCoreTurn K.held H.digest_of K.trail K.batches K.faults start before d.who
        (Merge d.pin d.other d.id d.tops d.prepared) (merge_reply answer.0) after
        × IfOk answer.0 (IsStored d.prepared)
        × (answer.1 ≡ length after) };

    fn act(self, value: &mut HeldCore<K, H>) -> (Result<Stored, MergeFault>, u64) {
        let MergeDeed {
            who,
            pin,
            other,
            id,
            tops,
            prepared,
        } = self;
        count_entries(&value.core);
        let answer = value.core.merge(who, pin, other, id, tops, prepared);
        (answer, count_entries(&value.core))
    }
}
