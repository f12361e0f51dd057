ghost use Rattle.std.specs.Prelude.{◌≡◌, ◌<◌, All, drop, length, IfOk};
ghost use Rattle.std.specs.List.{flat_map};
ghost use Rattle.cd_cell.specs.Equality.{same_hash};
ghost use Rattle.cd_update.specs.EachOnce.{each_once};
ghost use Rattle.cd_update.specs.Nodes.{IsShown};
ghost use Rattle.cd_update.specs.Visits.{place_of, visited};
ghost use Rattle.cd_update.specs.Pairing.{visible_hash, wanted_at, wanted_hashes, wanted_hashes_below};

use crate::hashes::Hashes;
use crate::hidden::{is_hidden, shown_info};
use crate::update::Update;
use crate::visit::Visit;
use cd_base::{Hash256, Memory};
use cd_cell::{Bag, Hash32};
use std::alloc::Global;

/// The hash by which the face of an old cell is found, where the cell is shown.
pub(crate) fn hash_of_visible<H: Hash32>(bag: &Bag<H>, visit: &Visit) -> Option<Hash256>
    requires { IsShown H.digest_of bag.now visit.now }
    ensures { result ≡ visible_hash H.digest_of (place_of bag.now visit.now.node) }
{
    let info = shown_info(bag, visit);
    let depth = visit.node.depth;
    if is_hidden(bag.face(visit.node.entry), info, depth) {
        return None;
    }
    Some(info.hash_at(depth))
}

/// The wanted hashes of some visits.
fn hashes_of<H: Hash32>(alloc: Global, bag: &Bag<H>, visits: &[Visit]) -> Result<Hashes, Memory>
    requires { All (IsShown H.digest_of bag.now) visits.now }
    ensures { IfOk result (λ hashes.
        hashes.all.items ≡ each_once same_hash (flat_map (wanted_at H.digest_of) (visited bag.now visits.now))) }
{
    let mut hashes = Hashes::new(alloc);
    for visit in visits {
        if let Some(hash) = hash_of_visible(bag, visit) {
            hashes.add(hash)?;
        }
    }
    Ok(hashes)
}

impl<H: Hash32> Update<'_, H> {
    ghost use Rattle.cd_update.specs.UpdateTrees.{tree_of};

    /// The hashes of the cells that the old half shows, in preorder, each once: at Merkle depth `d` a hash at
    /// level `d`. A store has the faces of the old tree under them.
    pub fn wanted(&self, alloc: Global) -> Result<Vec<Hash256>, Memory>
        ensures { IfOk result (λ hashes. hashes.items ≡ wanted_hashes H.digest_of (tree_of self.now)) }
    {
        let half = self.walk(alloc, 0)?;
        let hashes = hashes_of(alloc, half.bag, half.visits())?;
        Ok(hashes.all)
    }

    /// The hashes of the cells that the old half shows below its root, in preorder, each once. Over the joined tree
    /// of two states no store has the root.
    pub fn wanted_below(&self, alloc: Global) -> Result<Vec<Hash256>, Memory>
        ensures { IfOk result (λ hashes. hashes.items ≡ wanted_hashes_below H.digest_of (tree_of self.now)) }
    {
        let half = self.walk(alloc, 0)?;
        let hashes = hashes_of(alloc, half.bag, behind_first(half.visits()))?;
        Ok(hashes.all)
    }
}

/// All visits but the first one.
pub(crate) fn behind_first(visits: &[Visit]) -> &[Visit]
    requires { 0 < length visits.now }
    ensures { result.now ≡ drop 1 visits.now }
{
    &visits[1..]
}
