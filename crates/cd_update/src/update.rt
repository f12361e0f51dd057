ghost use Rattle.std.specs.Prelude.{◌≡◌, ◌<◌, None, Some, [], ◌∷◌, IfOk, MatchResult};
ghost use Rattle.cd_cell.specs.Bags.{bag_tree, bag_trees, IsBag};
ghost use Rattle.cd_update.specs.Nodes.{IsShown};
ghost use Rattle.cd_update.specs.Visits.{IsHalf};
ghost use Rattle.cd_update.specs.UpdateFaults.{IsUpdateEntry, fault_of_trees};

use crate::update_fault::UpdateFault;
use crate::visit::{Node, Visit};
use cd_cell::{Bag, Hash32, Kind, kind_of, plain_mask};

/// A Merkle update (TVM documentation, "Exotic cells"): the one root of a bag. Its first child is the old
/// half, which shows a part of an old tree; its second child is the new half.
#[derive(Drop)]
pub struct Update<'a, H: Hash32> {
    /// The bag.
    pub bag: &'a Bag<H>,
    /// The number of the root.
    pub root: u32,
    pub ghost is_bag: { IsBag H.digest_of bag.now.cells bag.now.refs bag.now.roots },
    pub ghost is_update: { IsUpdateEntry bag.now.cells root },
}

impl<'a, H: Hash32> Update<'a, H> {
    ghost use Rattle.cd_update.specs.UpdateTrees.{tree_of};

    /// The update that a bag has.
    pub fn of(bag: &'a Bag<H>) -> Result<Update<'a, H>, UpdateFault>
        ensures exact { MatchResult result (λ _. fault_of_trees H.digest_of (bag_trees bag.now) ≡ None)
            (λ fault. fault_of_trees H.digest_of (bag_trees bag.now) ≡ Some fault) }
        ensures same { IfOk result (λ update. update.bag.now ≡ bag.now) }
        ensures root { IfOk result (λ update. bag_trees bag.now ≡ tree_of update ∷ []) }
    {
        let [root] = bag.roots() else {
            return Err(UpdateFault::NotUpdate);
        };
        let face = bag.face(*root);
        let Some(Kind::Update) = kind_of(face) else {
            return Err(UpdateFault::NotUpdate);
        };
        let mask = plain_mask(face, Kind::Update).byte();
        if mask > 0 {
            return Err(UpdateFault::Level { mask });
        }
        Ok(Update { bag, root: *root })
    }

    /// The old half in place 0, the new one in place 1.
    pub(crate) fn half(&self, place: u8) -> Visit
        requires { place < 2 }
        ensures shown { IsShown H.digest_of self.now.bag.now result }
        ensures half { IsHalf self.now.bag.now result (tree_of self.now) place }
    {
        let children = self.bag.children(self.root);
        Visit {
            node: Node {
                entry: children[place as usize],
                depth: 0,
            },
            parent: self.root,
            place,
        }
    }
}
