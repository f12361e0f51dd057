//! Counting references in the rows of stored cells, which stand in the order of their hashes.

ghost use Rattle.std.specs.Prelude.{◌≡◌, ◌<◌, ℕ, List, [], ◌∷◌, ◌++◌, length, IfSome, IfOk, OnOk};
ghost use Rattle.std.specs.Option.{option_map};
ghost use Rattle.cd_base.specs.declared.hash.Hash256.{Hash256};
ghost use Rattle.cd_cell.specs.Equality.{same_info};
ghost use Rattle.cd_cell.specs.Infos.{rep_of_info};
ghost use Rattle.cd_cell.specs.Levels.{mask_of_face, info_of_face, height_of_face};
ghost use Rattle.cd_restart.specs.Stored.{Stored};
ghost use Rattle.cd_restart.specs.ScanFaults.{record_at};
ghost use Rattle.cd_restart.specs.Rows.{AreRising, AreRowsOf, IsPlaceOf, IsRowOf};

use crate::row::Row;
use cd_base::{Hash256, Memory};
use cd_cell::{ChildInfo, Mask};

/// The place of the row with this hash.
fn place_of(rows: &[Row], hash: &Hash256) -> Option<usize>
    ensures within { IfSome result (λ place. place < length rows.now) }
    ensures found { AreRising rows.now → IsPlaceOf rows.now hash.now result }
{
    rows.binary_search_by_key(hash, |row| row.hash()).ok()
}

/// Counts a reference to a hash, and gives the place of its row. Without a row nothing is counted.
fn refer(rows: &mut [Row], hash: &Hash256) -> Result<Option<usize>, Memory>
    ensures within { IfOk result (λ place. IfSome place (λ i. i < length rows.new)) }
    ensures row { IfOk result (λ place. (H : List ℕ → Hash256) (cells : List Stored) (hashes : List Hash256)
        → AreRowsOf H cells hashes rows.old → IsRowOf H cells hash.now rows.new place) }
    ensures counted { OnOk result ((H : List ℕ → Hash256) (cells : List Stored) (hashes : List Hash256)
        → AreRowsOf H cells hashes rows.old → AreRowsOf H cells (hashes ++ hash.now ∷ []) rows.new) }
{
    let Some(place) = place_of(rows, hash) else {
        return Ok(None);
    };
    rows[place].raise()?;
    Ok(Some(place))
}

/// Counts a reference to a child, and tells whether the cell under its hash shows what the parent says. `None` where no
/// cell has its hash.
pub fn refer_kid(rows: &mut [Row], kid: &ChildInfo) -> Result<Option<bool>, Memory>
    ensures same { IfOk result (λ same. (H : List ℕ → Hash256) (cells : List Stored) (hashes : List Hash256)
        → AreRowsOf H cells hashes rows.old
        → same ≡ option_map (λ r. same_info kid.now (info_of_face H r.face)) (record_at cells (rep_of_info kid.now))) }
    ensures counted { OnOk result ((H : List ℕ → Hash256) (cells : List Stored) (hashes : List Hash256)
        → AreRowsOf H cells hashes rows.old → AreRowsOf H cells (hashes ++ rep_of_info kid.now ∷ []) rows.new) }
{
    let hash = kid.rep();
    match refer(rows, &hash)? {
        Some(place) => Ok(Some(rows[place].shows(kid))),
        None => Ok(None),
    }
}

/// Counts a reference to a block's root, and gives the mask and the depth of its cell. `None` where no cell has its hash.
pub fn refer_root(rows: &mut [Row], root: &Hash256) -> Result<Option<(Mask, u16)>, Memory>
    ensures shown { IfOk result (λ shown. (H : List ℕ → Hash256) (cells : List Stored) (hashes : List Hash256)
        → AreRowsOf H cells hashes rows.old
        → shown ≡ option_map (λ r. (mask_of_face r.face, height_of_face r.face)) (record_at cells root.now)) }
    ensures counted { OnOk result ((H : List ℕ → Hash256) (cells : List Stored) (hashes : List Hash256)
        → AreRowsOf H cells hashes rows.old → AreRowsOf H cells (hashes ++ root.now ∷ []) rows.new) }
{
    match refer(rows, root)? {
        Some(place) => Ok(Some((rows[place].mask(), rows[place].height()))),
        None => Ok(None),
    }
}
