ghost use Rattle.std.specs.Prelude.{◌≡◌, All, IfOk};
ghost use Rattle.std.specs.List.{list_any};
ghost use Rattle.cd_update.specs.Nodes.{IsShown};
ghost use Rattle.cd_update.specs.Visits.{place_of, visited};
ghost use Rattle.cd_update.specs.Hides.{hides_at, hides};

use crate::agree::are_matching;
use crate::hidden::{is_hidden, shown_info};
use crate::update::Update;
use crate::visit::Visit;
use cd_base::Memory;
use cd_cell::{Bag, ChildInfo, Hash32};
use std::alloc::Global;

/// Whether a visit is hidden and a known cell stands for it.
fn hides_here<H: Hash32>(bag: &Bag<H>, visit: &Visit, known: &ChildInfo) -> bool
    requires { IsShown H.digest_of bag.now visit.now }
    ensures { result ≡ hides_at H.digest_of known.now (place_of bag.now visit.now.node) }
{
    let info = shown_info(bag, visit);
    let depth = visit.node.depth;
    if !is_hidden(bag.face(visit.node.entry), info, depth) {
        return false;
    }
    known.mask.byte() >> depth == 0 && are_matching(known, info, depth)
}

/// Whether one of some visits is hidden and a known cell stands for it.
fn hides_among<H: Hash32>(bag: &Bag<H>, visits: &[Visit], known: &ChildInfo) -> bool
    requires { All (IsShown H.digest_of bag.now) visits.now }
    ensures { result ≡ list_any (hides_at H.digest_of known.now) (visited bag.now visits.now) }
{
    for visit in visits {
        if hides_here(bag, visit, known) {
            return true;
        }
    }
    false
}

impl<H: Hash32> Update<'_, H> {
    ghost use Rattle.cd_update.specs.UpdateTrees.{new_half_of};

    /// Whether the new half hides a cell that a known one stands for. Where this is the first known one, as the old
    /// root is, exactly then the graft has it in the place of a hidden cell.
    pub fn hides(&self, alloc: Global, known: &ChildInfo) -> Result<bool, Memory>
        ensures { IfOk result (λ found. found ≡ hides H.digest_of known.now (new_half_of self.now)) }
    {
        let half = self.walk(alloc, 1)?;
        Ok(hides_among(half.bag, half.visits(), known))
    }
}
