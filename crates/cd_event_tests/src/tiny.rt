ghost use Rattle.std.specs.Prelude.{◌≡◌, ◌∷◌, ◌++◌, [], false, IfOk, IfSome, OnOk, OnErr, length};
ghost use Rattle.cd_cell.specs.GoodFace.{IsGoodFace};
ghost use Rattle.cd_cell.specs.Listings.{Fits};
ghost use Rattle.cd_cell.specs.Tree.{face_of, info_of, rep_of};
ghost use Rattle.cd_event.specs.Replies.{who_of, entry_of};
ghost use Rattle.cd_event.specs.Turning.{IsStored, AreGood, AreFacesOf};
ghost use Rattle.cd_event_tests.specs.Tiny.{empty_state};

use cd_base::{Hash256, Memory, one_more};
use cd_block::{BlockId, BlockIds};
use cd_cell::{Bits, ChildInfo, Face, Hash32, NewCell, Prepared, face_info};
use cd_event::{
    At, Entry, Event, ExpireFault, Journal, LookFault, MergeFault, PinFault, Pinned, Refusal,
    Reply, Stored, Turns, UnpinFault, Who, ZeroFault,
};
use std::alloc::Global;

/// A worker alone on a store of one block, which it may pin once, and whose state is the empty cell. It stores
/// whatever it is given by noting it.
#[derive(Drop)]
pub struct Tiny<H: Hash32> {
    alloc: Global,
    worker: u16,
    /// Whether the pin was given.
    pinned: bool,
    /// Whether each look fails.
    pub failing: bool,
    faults: u64,
    journal: Journal<H>,
}

/// The face of the empty cell.
fn empty_face() -> Face
    ensures { result ≡ record { exotic = false; bits = []; kids = [] } }
{
    Face::new(false, Bits::from_slice(&[], 0).unwrap(), &[])
}

/// What it shows.
fn empty_info<H: Hash32>() -> ChildInfo
    ensures { result ≡ info_of H.digest_of empty_state }
{
    face_info::<H>(&empty_face())
}

/// The state of the empty cell, listed whole.
pub fn empty_value<H: Hash32>(alloc: Global) -> Result<Prepared<H>, Memory>
    ensures old { IfOk result (λ value. value.old ≡ None) }
    ensures fits { IfOk result (λ value. Fits H.digest_of value.root value.cells []) }
{
    let root = empty_info::<H>();
    let mut cells = Vec::new(alloc);
    let cell = NewCell {
        hash: root.rep(),
        face: empty_face(),
    };
    if cells.push(cell).is_err() {
        return Err(Memory);
    }
    Ok(Prepared::new(None, root, cells))
}

/// The empty cell's face, where this is its hash.
fn answer<H: Hash32>(hash: &Hash256) -> Option<Face>
    ensures good { IfSome result IsGoodFace }
    ensures found { hash.now ≡ rep_of H.digest_of empty_state
        → result ≡ Some (face_of H.digest_of empty_state) }
{
    let face = empty_face();
    if *hash == empty_info::<H>().rep() {
        return Some(face);
    }
    None
}

/// Beside each hash the empty cell's face, where it is its hash.
fn found_among<H: Hash32>(alloc: Global, hashes: &[Hash256]) -> Result<Vec<Option<Face>>, Memory>
    ensures count { IfOk result (λ found. length found.items ≡ length hashes.now) }
    ensures good { IfOk result (λ found. AreGood found.items) }
    ensures faces { IfOk result (λ found. AreFacesOf H.digest_of empty_state hashes.now found.items) }
{
    let mut found = Vec::new(alloc);
    for hash in hashes {
        if found.push(answer::<H>(hash)).is_err() {
            return Err(Memory);
        }
    }
    Ok(found)
}

impl<H: Hash32> Tiny<H> {
    /// A worker of this number that has made no call.
    pub fn new(alloc: Global, worker: u16) -> Tiny<H> {
        Tiny {
            alloc,
            worker,
            pinned: false,
            failing: false,
            faults: 0,
            journal: Journal::new(alloc),
        }
    }

    /// The entries so far.
    pub fn entries(&self) -> &[Entry<H>]
        ensures { result.now ≡ self.now.journal }
    {
        self.journal.as_slice()
    }

    /// Notes an event and its reply.
    fn note(&mut self, at: At, event: Event<H>, reply: Reply) -> Result<(), Memory>
        ensures ok { OnOk result (self.new ≡ record self.old {
          journal = self.old.journal ++ (record { who = who_of at self.old.worker; event = event; reply = reply }) ∷ [];
        }) }
        ensures err { OnErr result (self.new ≡ self.old) }
    {
        let who = Who {
            phase: at.phase,
            worker: self.worker,
            task: at.task,
        };
        self.journal.push(Entry { who, event, reply })
    }
}

/// What is answered to a stored value.
fn stored_of<H: Hash32>(prepared: &Prepared<H>) -> Stored
    ensures { IsStored prepared.now result }
{
    Stored {
        root: prepared.root().rep(),
        cells: prepared.cells().len() as u64,
    }
}

impl<H: Hash32> Turns for Tiny<H> {
    ghost use Rattle.std.specs.Prelude.{◌≡◌};
    ghost use mathlib.Core.Path.{refl, ◌∙◌};
    ghost use Rattle.cd_event_tests.specs.Tiny.{pins_of};

    type Hash = H;

    ghost worker = { λ t. t.worker };

    ghost faults = { λ t. t.faults };

    ghost made = { λ t. t.journal };

    ghost named = { λ t. pins_of H.digest_of t.pinned };

    ghost goes = { λ t u. u.worker ≡ t.worker };

    fn take_zero(
        &mut self,
        at: At,
        id: BlockId,
        tops: BlockIds,
        slot: &mut Option<Prepared<H>>,
    ) -> Result<Stored, ZeroFault> {
        let Some(prepared) = slot.take() else {
            unreachable!()
        };
        let stored = stored_of(&prepared);
        let event = Event::Zero { id, tops, prepared };
        match self.note(at, event, Reply::Stored) {
            Ok(()) => Ok(stored),
            Err(Memory) => Err(ZeroFault::Memory),
        }
    }

    fn pin(&mut self, at: At, id: BlockId) -> Result<Pinned, PinFault> {
        let event = Event::Pin { id };
        if self.pinned {
            return match self.note(at, event, Reply::Refused(Refusal::PinsFull)) {
                Ok(()) => Err(PinFault::PinsFull),
                Err(Memory) => Err(PinFault::Memory),
            };
        }
        let root = empty_info::<H>();
        match self.note(at, event, Reply::Pinned { pin: 0 }) {
            Ok(()) => {
                self.pinned = true;
                Ok(Pinned { pin: 0, root })
            }
            Err(Memory) => Err(PinFault::Memory),
        }
    }

    #[tactic(auto, using(crate::proofs::States::all_are_states))]
    fn look(
        &mut self,
        at: At,
        pin: u64,
        hashes: &[Hash256],
    ) -> Result<Vec<Option<Face>>, LookFault> {
        let event = Event::Look {
            pin,
            asked: hashes.len() as u32,
        };
        if self.failing {
            return match self.note(at, event, Reply::Refused(Refusal::Keeper)) {
                Ok(()) => {
                    self.faults = one_more(self.faults);
                    Err(LookFault::Keeper)
                }
                Err(Memory) => Err(LookFault::Memory),
            };
        }
        let found = match found_among::<H>(self.alloc, hashes) {
            Ok(found) => found,
            Err(Memory) => return Err(LookFault::Memory),
        };
        match self.note(at, event, Reply::Looked) {
            Ok(()) => Ok(found),
            Err(Memory) => Err(LookFault::Memory),
        }
    }

    fn take_merge(
        &mut self,
        at: At,
        pin: u64,
        other: Option<u64>,
        id: BlockId,
        tops: BlockIds,
        slot: &mut Option<Prepared<H>>,
    ) -> Result<Stored, MergeFault> {
        let Some(prepared) = slot.take() else {
            unreachable!()
        };
        let stored = stored_of(&prepared);
        let event = Event::Merge {
            pin,
            other,
            id,
            tops,
            prepared,
        };
        match self.note(at, event, Reply::Stored) {
            Ok(()) => Ok(stored),
            Err(Memory) => Err(MergeFault::Memory),
        }
    }

    fn unpin(&mut self, at: At, pin: u64) -> Result<bool, UnpinFault> {
        let reply = Reply::Unpinned { collected: false };
        match self.note(at, Event::Unpin { pin }, reply) {
            Ok(()) => Ok(false),
            Err(Memory) => Err(UnpinFault::Memory),
        }
    }

    fn expire(&mut self, at: At, id: BlockId) -> Result<u64, ExpireFault> {
        match self.note(at, Event::Expire { id }, Reply::Expired { gone: 0 }) {
            Ok(()) => Ok(0),
            Err(Memory) => Err(ExpireFault::Memory),
        }
    }

    ghost stays = { λ t. refl };

    ghost further = { λ t u v a b. b ∙ a };
}
