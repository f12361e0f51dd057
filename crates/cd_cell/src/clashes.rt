ghost use Rattle.std.specs.Prelude.{◌≡◌, ◌≢◌, ℕ, ◌<◌, ◌^◌, ◌+◌, false, IsTrue, length, map, All, IfSome, IfNone, IfOk, IsSorted};
ghost use Rattle.std.specs.List.{zip};
ghost use Rattle.std.specs.Ordering.{nat_cmp, ordering_then};
ghost use Rattle.cd_cell.specs.Infos.{rep_of_info};
ghost use Rattle.cd_cell.specs.Export.{hash_cmp};
ghost use Rattle.cd_cell.specs.Bags.{face_at};
ghost use Rattle.cd_cell.specs.Clashes.{clash_among};
ghost use Rattle.cd_cell.specs.ClashSearch.{AllAgree, IsFirstClash, numbered_from, Agree};

use crate::{ChildInfo, Face};
use cd_base::{Hash256, Memory};
use std::alloc::Global;

/// The least representation hash that `infos` give for two different faces. It sorts the hashes, each with its cell's
/// number.
pub fn least_clash(
    alloc: Global,
    faces: &[Face],
    infos: &[ChildInfo],
) -> Result<Option<Hash256>, Memory>
    requires counted { length infos.now ≡ length faces.now }
    requires few { length faces.now < 2 ^ 32 }
    ensures { IfOk result (λ found. found ≡ clash_among (zip (map rep_of_info infos.now) faces.now)) }
{
    let mut keys = keys_of(alloc, infos)?;
    keys.sort_unstable();
    Ok(first_clash(&keys, faces))
}

/// The representation hash of each cell, with its number.
fn keys_of(alloc: Global, infos: &[ChildInfo]) -> Result<Vec<(Hash256, u32)>, Memory>
    requires { length infos.now < 2 ^ 32 }
    ensures { IfOk result (λ keys. keys.items ≡ numbered_from rep_of_info 0 infos.now) }
{
    let mut keys = Vec::with_capacity(alloc, infos.len())?;
    for (number, info) in infos.iter().enumerate() {
        keys.push((info.rep(), number as u32))?;
    }
    Ok(keys)
}

/// The hash of the first two neighbours that have one hash and different faces.
fn first_clash(keys: &[(Hash256, u32)], faces: &[Face]) -> Option<Hash256>
    requires { All (λ key. key.1 < length faces.now) keys.now }
    ensures none { IfNone result (AllAgree faces.now keys.now (length keys.now)) }
    ensures some { IfSome result (IsFirstClash faces.now keys.now) }
{
    for place in 1..keys.len() {
        if clash(keys[place - 1], keys[place], faces) {
            return Some(keys[place].0);
        }
    }
    None
}

/// Whether two keys have one hash, and their cells different faces.
fn clash(a: (Hash256, u32), b: (Hash256, u32), faces: &[Face]) -> bool
    requires left { a.1 < length faces.now }
    requires right { b.1 < length faces.now }
    ensures agree { result ≡ false → Agree faces.now a b }
    ensures differ { IsTrue result → (a.0 ≡ b.0) × (face_at faces.now a.1 ≢ face_at faces.now b.1) }
{
    a.0 == b.0 && faces[a.1 as usize] != faces[b.1 as usize]
}
