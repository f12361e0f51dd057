ghost use Rattle.std.specs.Prelude.{ℕ, ◌<◌, ◌^◌, ◌≡◌, ◌⊎◌, ◌↔◌, IsNone, IfSome, IsTrue};
ghost use Rattle.std.proofs.Common.{rules};
ghost use Rattle.std.specs.Cmp.{partial_order_from_own_ties};
ghost use Rattle.std.specs.Cmp.Rules.{comparing};
ghost use Rattle.std.specs.Ordering.{as_partial_cmp};
ghost use Rattle.cd_block.specs.Shard.{shard_cmp, prefix_of, is_either_prefix, is_longer_by_one};
ghost use Rattle.cd_block.specs.Shard.{is_master, meets, is_child_of};
ghost use Rattle.cd_block.specs.declared.shard.ShardId.{ShardId};
ghost use Rattle.cd_block.specs.Block.{IsShardId};

use std::cmp::Ordering;

/// A shard of a workchain (TON whitepaper, 2.1.7 and 2.1.8).
///
/// The lowest bit that is set in `shard` is the tag, and the bits above it are the prefix that all accounts of
/// the shard have in common; the number 0 has no tag and names no shard. The masterchain has the workchain -1
/// and the shard `8000000000000000`. Shards are ordered by the 12 bytes that they have in a block's key, so a
/// negative workchain comes after all others.
#[derive(Clone, Copy, Debug, PartialEq, Eq, Hash)]
pub struct ShardId {
    pub workchain: i32,
    pub shard: u64,
}

impl ShardId {
    /// Whether the two shards have accounts in common: one prefix begins the other, in one workchain.
    #[tactic(auto, unfolding(crate::specs::Shard::meets))]
    pub fn meets(&self, other: &ShardId) -> bool
        ensures { result ≡ meets self.now other.now }
    {
        self.workchain == other.workchain && share_prefix(self.shard, other.shard)
    }

    /// The shard of which this one is a half. None for a whole workchain, and for the shard number 0.
    pub fn parent(&self) -> Option<ShardId>
        ensures none { IsNone result ↔ ((self.now.shard ≡ 0) ⊎ (self.now.shard
            ≡ 0x8000000000000000)) }
        ensures child { IfSome result (λ parent. IsTrue (is_child_of self.now parent)) }
        ensures only { (parent : ShardId) → IsShardId parent
            → IsTrue (is_child_of self.now parent) → result ≡ Some parent }
    {
        let shard = parent_number(self.shard)?;
        Some(ShardId {
            workchain: self.workchain,
            shard,
        })
    }

    /// Whether this shard is one of the two halves of the other.
    #[tactic(auto, unfolding(crate::specs::Shard::is_child_of))]
    pub fn is_child_of(&self, other: &ShardId) -> bool
        ensures { result ≡ is_child_of self.now other.now }
    {
        self.workchain == other.workchain && is_half(self.shard, other.shard)
    }

    /// Whether this is the masterchain's shard.
    #[tactic(auto, unfolding(crate::specs::Shard::is_master))]
    pub fn is_master(&self) -> bool
        ensures { result ≡ is_master self.now }
    {
        self.workchain == -1 && self.shard == 0x8000_0000_0000_0000
    }
}

impl Ord for ShardId {
    ghost cmp = { shard_cmp };

    ghost total = { Prim.search (comparing, rules) };

    ghost matches_partial_cmp = { Prim.search (comparing, rules) };

    ghost matches_eq = { Prim.search (comparing, rules) };

    fn cmp(&self, other: &ShardId) -> Ordering {
        let sign = self
            .workchain
            .is_negative()
            .cmp(&other.workchain.is_negative());
        sign.then(self.workchain.cmp(&other.workchain))
            .then(self.shard.cmp(&other.shard))
    }
}

impl PartialOrd for ShardId {
    ghost partial_cmp = { as_partial_cmp shard_cmp };

    ghost laws = { partial_order_from_own_ties (Prim.search (comparing, rules)) (Prim.search (comparing, rules)) };

    fn partial_cmp(&self, other: &ShardId) -> Option<Ordering> {
        Some(self.cmp(other))
    }
}

/// Whether one prefix begins the other.
fn share_prefix(a: u64, b: u64) -> bool
    ensures { result ≡ is_either_prefix (prefix_of a) (prefix_of b) }
{
    if a == 0 || b == 0 {
        return false;
    }
    let tag = a.trailing_zeros().max(b.trailing_zeros());
    a >> tag >> 1 == b >> tag >> 1
}

/// The shard number whose prefix has one bit less.
fn parent_number(shard: u64) -> Option<u64>
    ensures none { IsNone result ↔ ((shard ≡ 0) ⊎ (shard ≡ 0x8000000000000000)) }
    ensures child { IfSome result (λ parent.
        IsTrue (is_longer_by_one (prefix_of parent) (prefix_of shard))) }
    ensures only { (parent : ℕ) → parent < 2 ^ 64
        → IsTrue (is_longer_by_one (prefix_of parent) (prefix_of shard)) → result ≡ Some parent }
{
    if shard == 0 || shard == 0x8000_0000_0000_0000 {
        return None;
    }
    let tag = shard.trailing_zeros();
    let prefix = shard >> tag >> 1;
    Some((prefix | 1) << (tag + 1))
}

/// Whether a shard number is one of the two halves of another.
fn is_half(shard: u64, parent: u64) -> bool
    ensures { result ≡ is_longer_by_one (prefix_of parent) (prefix_of shard) }
{
    parent_number(shard) == Some(parent)
}
