ghost use Rattle.std.specs.Prelude.{◌≡◌, ◌<◌, length, map, All, IfOk};
ghost use Rattle.cd_prepare.specs.Keys.{cell_of_key};

use cd_cell::{ExportKey, Face, NewCell};
use std::alloc::{AllocError, Global};

/// The cells with these keys, each face copied into its place.
pub fn cells_of(
    alloc: Global,
    faces: &[Face],
    keys: &[ExportKey],
) -> Result<Vec<NewCell>, AllocError>
    requires { All (λ key. key.number < length faces.now) keys.now }
    ensures { IfOk result (λ cells. cells.items ≡ map (cell_of_key faces.now) keys.now) }
{
    let mut cells = Vec::with_capacity(alloc, keys.len())?;
    for key in keys {
        cells.push(NewCell {
            hash: key.rank.hash,
            face: faces[key.number],
        })?;
    }
    Ok(cells)
}
