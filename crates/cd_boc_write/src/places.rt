ghost use Rattle.std.specs.Prelude.{◌≡◌, ◌≤◌, length, take, IfOk, List};
ghost use Rattle.cd_cell.specs.declared.new_cell.NewCell.{NewCell};
ghost use Rattle.cd_boc_write.specs.Exports.{place_among, refs_among};
ghost use Rattle.cd_boc_write.specs.Keys.{AreKeysOf};

use crate::placed_hash::PlacedHash;
use cd_base::Hash256;
use cd_cell::{ChildInfo, MOST_CELLS, NewCell};
use std::alloc::{AllocError, Global};

/// The keys of listed cells, in order.
pub fn keys_of(alloc: Global, cells: &[NewCell]) -> Result<Vec<PlacedHash>, AllocError>
    requires { length cells.now ≤ MOST_CELLS }
    ensures { IfOk result (λ keys. AreKeysOf cells.now keys.items) }
{
    let mut keys = Vec::with_capacity(alloc, cells.len())?;
    for (place, cell) in cells.iter().enumerate() {
        keys.push(PlacedHash {
            hash: cell.hash,
            place: place as u32,
        })?;
    }
    keys.sort_unstable();
    Ok(keys)
}

/// The first place at which a hash is listed, or 0, by the keys of the listed cells.
pub fn place_among(keys: &[PlacedHash], hash: &Hash256) -> u32
    ensures { (cells : List NewCell) → AreKeysOf cells keys.now
        → result ≡ place_among cells hash.now }
{
    let first = PlacedHash {
        hash: *hash,
        place: 0,
    };
    match keys.binary_search(&first) {
        Ok(_) => 0,
        Err(at) => match keys.get(at) {
            Some(key) if key.hash == *hash => key.place,
            _ => 0,
        },
    }
}

/// The places of what a cell's children show; behind them stand zeros.
pub fn refs_of(keys: &[PlacedHash], kids: &[ChildInfo]) -> [u32; 4]
    requires { length kids.now ≤ 4 }
    ensures { (cells : List NewCell) → AreKeysOf cells keys.now
        → take (length kids.now) result ≡ refs_among cells kids.now }
{
    let mut refs = [0; 4];
    for (at, kid) in kids.iter().enumerate() {
        refs[at] = place_among(keys, &kid.rep());
    }
    refs
}
