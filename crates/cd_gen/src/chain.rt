ghost use Rattle.std.specs.Prelude.{◌≡◌, ◌+◌, ◌-◌, ◌++◌, IfOk, OnOk};
ghost use Rattle.cd_feed.specs.Feeds.{IsBagFit};
ghost use Rattle.cd_gen.specs.States.{state_of, zero_root};
ghost use Rattle.cd_gen.specs.Listing.{infos_of};
ghost use Rattle.cd_gen.specs.Generated.{zero_bag, update_bag};

use crate::cells::{infos_of, list};
use crate::export::bag_of;
use crate::states::{Owner, list_full};
use crate::updates::{Block, list_after, list_before, update};
use cd_base::{Hash256, Memory};
use cd_cell::ChildInfo;
use cd_feed::Bytes;
use std::alloc::Global;

/// The number of cells of a state.
const STATE_CELLS: usize = 1023;

/// The number of cells listed for an update: two halves of 319 cells, and the update itself.
const UPDATE_CELLS: usize = 639;

/// The levels of a state over its leaves.
const LEVELS: u32 = 9;

/// A chain of blocks, by its newest state.
#[derive(Drop)]
pub struct Chain {
    pub owner: Owner,
    /// The seqno of the newest state.
    pub seqno: u32,
    /// What the cells of the newest state show.
    state: Vec<ChildInfo>,
    ghost state_is: { state.items ≡ infos_of (state_of owner.number owner.chain seqno) },
}

/// The root hash of a zero state, and its bag.
#[derive(Drop)]
pub struct ZeroState {
    pub root: Hash256,
    pub bag: Bytes,
}

impl Chain {
    /// A chain behind its zero state, which is answered too.
    pub fn start(alloc: Global, owner: Owner) -> Result<(Chain, ZeroState), Memory>
        ensures owner { IfOk result (λ x. x.0.owner ≡ owner) }
        ensures seqno { IfOk result (λ x. x.0.seqno ≡ 0) }
        ensures root { IfOk result (λ x. x.1.root ≡ zero_root owner.number owner.chain) }
        ensures short { IfOk result (λ x. IsBagFit x.1.bag) }
        ensures bag { IfOk result (λ x. x.1.bag ≡ zero_bag owner.number owner.chain) }
    {
        let mut cells = Vec::with_capacity(alloc, STATE_CELLS)?;
        let root = list_full(&mut cells, owner, LEVELS, 0)?.rep();
        let state = infos_of(alloc, &cells)?;
        let bag = bag_of(alloc, &cells)?;
        Ok((
            Chain {
                owner,
                seqno: 0,
                state,
            },
            ZeroState { root, bag },
        ))
    }

    /// Goes on by the block of this seqno, and answers the bag of its update.
    pub fn go_on(&mut self, alloc: Global, seqno: u32) -> Result<Bytes, Memory>
        requires { self.old.seqno + 1 ≡ seqno }
        ensures owner { self.new.owner ≡ self.old.owner }
        ensures seqno { OnOk result (self.new.seqno ≡ seqno) }
        ensures short { IfOk result (λ bag. IsBagFit bag) }
        ensures bag { IfOk result
            (λ bag. bag ≡ update_bag self.old.owner.number self.old.owner.chain seqno) }
    {
        let block = Block {
            owner: self.owner,
            seqno,
        };
        let mut state = Vec::with_capacity(alloc, STATE_CELLS)?;
        let bag = update_of(alloc, &self.state, &block, &mut state)?;
        self.state = state;
        self.seqno = seqno;
        Ok(bag)
    }
}

/// The bag of a block's update. `state` is what the cells of the state before show; what those of the block's state show is
/// put behind `next`.
fn update_of(
    alloc: Global,
    state: &[ChildInfo],
    block: &Block,
    next: &mut Vec<ChildInfo>,
) -> Result<Bytes, Memory>
    requires { state.now ≡ infos_of (state_of block.now.owner.number block.now.owner.chain
        (block.now.seqno - 1)) }
    ensures short { IfOk result (λ bag. IsBagFit bag) }
    ensures bag { IfOk result (λ bag. bag
        ≡ update_bag block.now.owner.number block.now.owner.chain block.now.seqno) }
    ensures next { OnOk result (next.new.items ≡ next.old.items
        ++ infos_of (state_of block.now.owner.number block.now.owner.chain block.now.seqno)) }
{
    let mut cells = Vec::with_capacity(alloc, UPDATE_CELLS)?;
    let new = list_after(&mut cells, next, state, block, LEVELS, 0)?;
    let old = list_before(&mut cells, state, block, LEVELS, 0)?;
    let face = update(alloc, &old, &new)?;
    list(&mut cells, face)?;
    bag_of(alloc, &cells)
}
