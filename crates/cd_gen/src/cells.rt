ghost use Rattle.std.specs.Prelude.{◌≡◌, ◌++◌, [], ◌∷◌, map, IfOk, OnOk};
ghost use Rattle.cd_cell.specs.Levels.{info_of_face};
ghost use Rattle.cd_gen.specs.States.{sha};
ghost use Rattle.cd_gen.specs.Listing.{faces};

use crate::cell::Cell;
use cd_base::Memory;
use cd_cell::{ChildInfo, Face, Sha, face_info};
use std::alloc::{AllocError, Global};

/// A cell with this face.
fn cell_of(face: Face) -> Result<Cell, Memory>
    ensures { IfOk result (λ cell. cell.face ≡ face) }
{
    // No face of the generator fails the check.
    if face.check().is_err() {
        return Err(Memory);
    }
    let info = face_info::<Sha>(&face);
    Ok(Cell { info, face })
}

/// Lists a cell, and answers what it shows.
pub fn list(cells: &mut Vec<Cell>, face: Face) -> Result<ChildInfo, Memory>
    ensures listed { OnOk result (faces cells.new.items ≡ faces cells.old.items ++ face ∷ []) }
    ensures info { IfOk result (λ info. info ≡ info_of_face sha face) }
{
    let cell = cell_of(face)?;
    let info = cell.info;
    cells.push(cell)?;
    Ok(info)
}

/// What each of these cells shows.
pub fn infos_of(alloc: Global, cells: &[Cell]) -> Result<Vec<ChildInfo>, AllocError>
    ensures { IfOk result (λ infos. infos.items ≡ map (λ c. c.info) cells.now) }
{
    let mut infos = Vec::with_capacity(alloc, cells.len())?;
    for cell in cells {
        infos.push(cell.info)?;
    }
    Ok(infos)
}
