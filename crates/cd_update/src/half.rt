ghost use Rattle.std.specs.Prelude.{◌≡◌, ◌<◌, length, All, Contains, IfOk};
ghost use Rattle.cd_update.specs.Nodes.{IsShown};
ghost use Rattle.cd_update.specs.Visits.{visit_at, IsHalf, IsWalked};

use crate::update::Update;
use crate::visit::Visit;
use crate::walk::{Walk, visit_all};
use cd_base::Memory;
use cd_cell::{Bag, Hash32};
use std::alloc::Global;

/// A half of an update, with the visits of all its entries.
#[derive(Drop)]
pub(crate) struct HalfWalk<'a, H: Hash32> {
    pub bag: &'a Bag<H>,
    /// The root of the half.
    pub start: Visit,
    pub walk: Walk,
    pub ghost walked: { IsWalked H.digest_of bag.now start walk.visits.items walk.numbers.items },
}

impl<H: Hash32> HalfWalk<'_, H> {
    /// In preorder, by their first places.
    pub fn visits(&self) -> &[Visit]
        ensures value { result.now ≡ self.now.walk.visits.items }
        ensures shown { All (IsShown H.digest_of self.now.bag.now) result.now }
    {
        self.walk.visits.as_slice()
    }

    /// The visit of a number.
    pub fn at(&self, number: usize) -> &Visit
        requires { number < length self.now.walk.visits.items }
        ensures value { result.now ≡ visit_at self.now.walk.visits.items number }
        ensures there { Contains self.now.walk.visits.items result.now }
        ensures shown { IsShown H.digest_of self.now.bag.now result.now }
    {
        &self.walk.visits[number]
    }
}

impl<'a, H: Hash32> Update<'a, H> {
    ghost use Rattle.cd_update.specs.UpdateTrees.{tree_of};

    /// The walk over the old half in place 0, or over the new one in place 1.
    pub(crate) fn walk(&self, alloc: Global, place: u8) -> Result<HalfWalk<'a, H>, Memory>
        requires { place < 2 }
        ensures { IfOk result (λ it. IsHalf it.bag.now it.start (tree_of self.now) place) }
    {
        let start = self.half(place);
        match visit_all(alloc, self.bag, start) {
            Ok(walk) => Ok(HalfWalk {
                bag: self.bag,
                start,
                walk,
            }),
            Err(fault) => Err(fault),
        }
    }
}
