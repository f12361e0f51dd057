ghost use Rattle.std.specs.Prelude.{◌≡◌, ◌<◌, ◌≤◌, length, IfOk};
ghost use Rattle.cd_cell.specs.Bags.{bag_tree};
ghost use Rattle.cd_boc_write.specs.Exports.{bag_of};

use cd_boc_write::write_bag;
use cd_cell::{Bag, Hash32, MOST_CELLS};
use cd_prepare::all_cells;
use std::alloc::{AllocError, Global};

/// The export text of the cell of an entry of a bag, with the cells below it.
pub fn export<H: Hash32>(alloc: Global, bag: &Bag<H>, root: u32) -> Result<Vec<u8>, AllocError>
    requires there { root < length bag.now.cells }
    requires few { length bag.now.cells ≤ MOST_CELLS }
    ensures { IfOk result (λ text. text.items ≡ bag_of H.digest_of (bag_tree bag.now root)) }
{
    let cells = all_cells(alloc, bag, root)?;
    match write_bag(alloc, &cells) {
        Ok(text) => Ok(text),
        Err(_) => Err(AllocError),
    }
}
