ghost use Rattle.std.specs.Prelude.{◌≡◌, ◌<◌, length};
ghost use Rattle.cd_cell.specs.Tree.{info_of};
ghost use Rattle.cd_cell.specs.Bags.{bag_tree, IsBag};

use cd_cell::{Bag, ChildInfo, Hash32};

/// An entry of a bag, with what its cell shows.
#[derive(Drop)]
pub struct Start<'a, H: Hash32> {
    pub bag: &'a Bag<H>,
    /// The number of the entry.
    pub number: u32,
    pub info: ChildInfo,
    pub ghost is_bag: { IsBag H.digest_of bag.now.cells bag.now.refs bag.now.roots },
    pub ghost there: { number < length bag.now.cells },
    pub ghost shown: { info ≡ info_of H.digest_of (bag_tree bag.now number) },
}

impl<'a, H: Hash32> Start<'a, H> {
    /// Hashes the entry's cell.
    pub fn of(bag: &'a Bag<H>, number: u32) -> Start<'a, H>
        requires { number < length bag.now.cells }
        ensures bag { result.bag.now ≡ bag.now }
        ensures number { result.number ≡ number }
    {
        let info = bag.info(number);
        Start { bag, number, info }
    }
}
