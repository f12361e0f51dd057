//! A worker's turns on a core that nobody else uses meanwhile.
ghost use Rattle.std.specs.Prelude.{◌≡◌};
ghost use Rattle.cd_event.specs.Replies.{who_of};
ghost use Rattle.cd_core.specs.Cores.{IsCore};

use crate::body::Core;
use cd_base::Hash256;
use cd_block::{BlockId, BlockIds};
use cd_cell::{Face, Hash32, Prepared};
use cd_event::{
    At, ExpireFault, LookFault, MergeFault, PinFault, Pinned, Stored, Turns, UnpinFault, Who,
    ZeroFault,
};
use cd_keeper::Keeper;

/// One worker's turns on a core of one thread. Others may have made entries before, and may make some after.
#[derive(Drop)]
pub struct OneThread<'a, K: Keeper, H: Hash32> {
    core: &'a mut Core<K, H>,
    worker: u16,
}

impl<'a, K: Keeper, H: Hash32> OneThread<'a, K, H> {
    /// The turns of the worker with this number.
    pub fn new(core: &'a mut Core<K, H>, worker: u16) -> OneThread<'a, K, H>
        ensures core { result.core ≡ core.entry }
        ensures worker { result.worker ≡ worker }
    {
        OneThread { core, worker }
    }

    /// The full name of one of the worker's tasks.
    fn who(&self, at: At) -> Who
        ensures { result ≡ who_of at self.now.worker }
    {
        Who {
            phase: at.phase,
            worker: self.worker,
            task: at.task,
        }
    }
}

impl<'a, K: Keeper, H: Hash32> Turns for OneThread<'a, K, H> {
    ghost use Rattle.std.specs.Prelude.{◌≡◌};
    ghost use mathlib.Core.Path.{refl, ◌∙◌, subst};
    ghost use Rattle.cd_core.specs.Going.{goes_stays, goes_further};
    ghost use Rattle.cd_core.specs.Workers.{GoesOn, made_by, named_by};

    type Hash = H;

    ghost worker = { λ t. t.worker };

    ghost faults = { λ t. K.faults t.core.now.keeper };

    ghost made = { λ t. made_by t.worker t.core.now.journal };

    ghost named = { λ t. named_by H.digest_of K.held t.worker t.core.now.start t.core.now.journal };

    ghost goes = { λ t u. (u.core.ghost_name ≡ t.core.ghost_name) × (u.worker ≡ t.worker)
        × GoesOn t.worker t.core.now u.core.now };

    fn take_zero(
        &mut self,
        at: At,
        id: BlockId,
        tops: BlockIds,
        slot: &mut Option<Prepared<H>>,
    ) -> Result<Stored, ZeroFault> {
        let Some(prepared) = slot.take() else {
            unreachable!()
        };
        let who = self.who(at);
        self.core.zero(who, id, tops, prepared)
    }

    fn pin(&mut self, at: At, id: BlockId) -> Result<Pinned, PinFault> {
        let who = self.who(at);
        know(self.core);
        let answer = self.core.pin(who, id);
        know(self.core);
        answer
    }

    fn look(
        &mut self,
        at: At,
        pin: u64,
        hashes: &[Hash256],
    ) -> Result<Vec<Option<Face>>, LookFault> {
        let who = self.who(at);
        know(self.core);
        self.core.look(who, pin, hashes)
    }

    fn take_merge(
        &mut self,
        at: At,
        pin: u64,
        other: Option<u64>,
        id: BlockId,
        tops: BlockIds,
        slot: &mut Option<Prepared<H>>,
    ) -> Result<Stored, MergeFault> {
        let Some(prepared) = slot.take() else {
            unreachable!()
        };
        let who = self.who(at);
        know(self.core);
        self.core.merge(who, pin, other, id, tops, prepared)
    }

    fn unpin(&mut self, at: At, pin: u64) -> Result<bool, UnpinFault> {
        let who = self.who(at);
        know(self.core);
        self.core.unpin(who, pin)
    }

    fn expire(&mut self, at: At, id: BlockId) -> Result<u64, ExpireFault> {
        let who = self.who(at);
        self.core.expire(who, id)
    }

    ghost stays = { λ t. (refl, refl, goes_stays t.worker t.core.now) };

    ghost further = { λ t u v a b. (
      b.0 ∙ a.0,
      b.1 ∙ a.1,
      goes_further t.worker t.core.now u.core.now v.core.now a.2
          (subst (λ n. GoesOn n u.core.now v.core.now) a.1 b.2),
    ) };
}

/// Tells a caller's proof what a core keeps, and does nothing.
fn know<K: Keeper, H: Hash32>(core: &Core<K, H>)
    ensures { IsCore K.held H.digest_of K.trail K.batches K.faults
        core.now.start core.now.journal core.now.keeper }
{
    let _ = core.journal();
}
