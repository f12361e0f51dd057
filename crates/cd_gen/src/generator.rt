ghost use Rattle.std.specs.Prelude.{◌≡◌, ◌+◌, ◌≤◌, IfOk, OnOk};
ghost use Rattle.cd_feed.specs.Feeds.{IsFeedFit};
ghost use Rattle.cd_gen.specs.Generated.{update_bag, feed_of};

use crate::chain::Chain;
use crate::names::Names;
use crate::phases::{BlockBags, LAST_MASTER, block_phase, zero_phase};
use crate::states::Owner;
use cd_base::Memory;
use cd_feed::{Bytes, Feed, Phases};
use std::alloc::Global;

/// The last blocks of the shards.
const LAST_SHARD: u32 = 67;

/// The chains of a feed.
#[derive(Drop)]
struct Chains {
    number: u64,
    master: Chain,
    left: Chain,
    right: Chain,
    ghost master_is: { master.owner ≡ record { number = number; chain = 0 } },
    ghost left_is: { left.owner ≡ record { number = number; chain = 1 } },
    ghost right_is: { right.owner ≡ record { number = number; chain = 2 } },
}

impl Chains {
    /// Goes on by the blocks of this seqno; the masterchain ends one block before the shards.
    fn go_on(&mut self, alloc: Global, seqno: u32) -> Result<BlockBags, Memory>
        requires left { self.old.left.seqno + 1 ≡ seqno }
        requires right { self.old.right.seqno + 1 ≡ seqno }
        requires master { seqno ≤ LAST_MASTER → self.old.master.seqno + 1 ≡ seqno }
        ensures number { self.new.number ≡ self.old.number }
        ensures left_seqno { OnOk result (self.new.left.seqno ≡ seqno) }
        ensures right_seqno { OnOk result (self.new.right.seqno ≡ seqno) }
        ensures master_seqno { seqno ≤ LAST_MASTER → OnOk result (self.new.master.seqno ≡ seqno) }
        ensures left { IfOk result (λ bags. bags.left ≡ update_bag self.old.number 1 seqno) }
        ensures right { IfOk result (λ bags. bags.right ≡ update_bag self.old.number 2 seqno) }
        ensures master { IfOk result
            (λ bags. seqno ≤ LAST_MASTER → bags.master ≡ update_bag self.old.number 0 seqno) }
    {
        let left = self.left.go_on(alloc, seqno)?;
        let right = self.right.go_on(alloc, seqno)?;
        let master = if seqno > LAST_MASTER {
            Bytes::new(alloc)
        } else {
            self.master.go_on(alloc, seqno)?
        };
        Ok(BlockBags {
            master,
            left,
            right,
        })
    }
}

/// The feed of this number: three chains of blocks over states of 1,023 cells, with readers, slices and expiries.
/// `Memory` is free.
pub fn make_feed(alloc: Global, n: u64) -> Result<Feed, Memory>
    ensures feed { IfOk result (λ feed. feed ≡ feed_of n) }
    ensures fit { IfOk result (λ feed. IsFeedFit feed) }
{
    let (master, zero) = Chain::start(
        alloc,
        Owner {
            number: n,
            chain: 0,
        },
    )?;
    let (left, left_zero) = Chain::start(
        alloc,
        Owner {
            number: n,
            chain: 1,
        },
    )?;
    let (right, right_zero) = Chain::start(
        alloc,
        Owner {
            number: n,
            chain: 2,
        },
    )?;
    let names = Names {
        number: n,
        master: zero.root,
        left: left_zero.root,
        right: right_zero.root,
    };
    let bags = BlockBags {
        master: zero.bag,
        left: left_zero.bag,
        right: right_zero.bag,
    };
    let mut chains = Chains {
        number: n,
        master,
        left,
        right,
    };
    let mut phases = Vec::with_capacity(alloc, 68)?;
    phases.push(zero_phase(alloc, &names, bags)?)?;
    for seqno in 1..LAST_SHARD + 1 {
        let bags = chains.go_on(alloc, seqno)?;
        phases.push(block_phase(alloc, &names, seqno, bags)?)?;
    }
    Ok(Feed {
        phases: Phases::from(phases),
    })
}
