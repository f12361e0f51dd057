ghost use Rattle.std.specs.Prelude.{◌≡◌};
ghost use Rattle.cd_cell.specs.GoodFace.{IsGoodFace};
ghost use Rattle.cd_cell.specs.Levels.{info_of_face};
ghost use Rattle.cd_gen.specs.States.{sha};

use cd_cell::{ChildInfo, Face};

/// A cell of a tree: its face, and what it shows.
#[derive(Drop)]
pub struct Cell {
    pub info: ChildInfo,
    pub face: Face,
    pub ghost good: { IsGoodFace face },
    pub ghost shows: { info ≡ info_of_face sha face },
}
