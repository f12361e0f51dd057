ghost use Rattle.std.specs.Prelude.{◌≡◌, ◌<◌, ◌≤◌, [], ◌∷◌, None, All, IfOk, length, map};
ghost use Rattle.cd_cell.specs.GoodFace.{IsGoodFace};
ghost use Rattle.cd_cell.specs.Tree.{Tree};
ghost use Rattle.cd_cell.specs.Bags.{bag_tree, bag_trees};
ghost use Rattle.cd_cell.specs.Export.{distinct_cells, AreClashFree};
ghost use Rattle.cd_cell.specs.Listings.{new_cell_of, IsValid};
ghost use Rattle.cd_prepare.specs.States.{state_fault, Answers, IsWhole};

use crate::PrepareFault;
use crate::listing::cells_of;
use crate::reach::reach;
use crate::start::Start;
use cd_cell::{Bag, Hash32, NewCell, Prepared, sort_keys};
use std::alloc::{AllocError, Global};

/// All cells that an entry of a bag leads to, its own first, each once, in the order of an export: by height, the
/// greatest first, and then by hash, the least first. Nothing is hashed but the entry's cell.
pub fn all_cells<H: Hash32>(
    alloc: Global,
    bag: &Bag<H>,
    root: u32,
) -> Result<Vec<NewCell>, AllocError>
    requires there { root < length bag.now.cells }
    ensures cells { IfOk result (λ cells.
        cells.items ≡ map (new_cell_of H.digest_of) (distinct_cells H.digest_of (bag_tree bag.now root))) }
    ensures few { IfOk result (λ cells. length cells.items ≤ length bag.now.cells) }
    ensures good { IfOk result (λ cells. All (λ c. IsGoodFace c.face) cells.items) }
{
    cells_below(alloc, &Start::of(bag, root))
}

/// The same of an entry whose cell is hashed already.
fn cells_below<H: Hash32>(alloc: Global, root: &Start<'_, H>) -> Result<Vec<NewCell>, AllocError>
    ensures cells { IfOk result (λ cells.
        cells.items
        ≡ map (new_cell_of H.digest_of) (distinct_cells H.digest_of (bag_tree root.now.bag.now root.now.number))) }
    ensures few { IfOk result (λ cells. length cells.items ≤ length root.now.bag.now.cells) }
    ensures good { IfOk result (λ cells. All (λ c. IsGoodFace c.face) cells.items) }
{
    let mut keys = reach(alloc, root)?;
    sort_keys(&mut keys);
    cells_of(alloc, root.bag.cells(), &keys)
}

/// The prepared value of a state that a bag has whole: all its cells are new. Nothing is hashed but the root.
pub fn prepare_zero<H: Hash32>(alloc: Global, bag: &Bag<H>) -> Result<Prepared<H>, PrepareFault>
    ensures exact { Answers (state_fault H.digest_of (bag_trees bag.now)) result }
    ensures clear { IfOk result (λ _. AreClashFree H.digest_of (bag_trees bag.now)) }
    ensures old { IfOk result (λ value. value.old ≡ None) }
    ensures few { IfOk result (λ value. length value.cells ≤ length bag.now.cells) }
    ensures valid { IfOk result (λ value. IsValid H.digest_of value.root value.cells) }
    ensures whole { IfOk result (λ value. (state : Tree) → bag_trees bag.now ≡ state ∷ []
        → IsWhole H.digest_of state value.root value.cells) }
{
    let [root] = bag.roots() else {
        let roots = u32::try_from(bag.roots().len()).unwrap_or(u32::MAX);
        return Err(PrepareFault::Roots { roots });
    };
    let start = Start::of(bag, *root);
    if start.info.mask.byte() != 0 {
        return Err(PrepareFault::Level {
            mask: start.info.mask,
        });
    }
    let Ok(cells) = cells_below(alloc, &start) else {
        return Err(PrepareFault::Memory);
    };
    Ok(Prepared::new(None, start.info, cells))
}
