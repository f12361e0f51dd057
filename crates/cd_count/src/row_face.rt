//! The face in a row of a plan.

ghost use Rattle.std.specs.Prelude.{◌≡◌, IfOk};

use cd_base::Memory;
use cd_cell::Face;
use std::alloc::Global;
use std::marker::Model;

/// Where a face stands.
#[derive(Drop)]
enum Place<'a> {
    /// In the list of cells that came.
    Listed(&'a Face),
    /// In memory of its own, since it was read from the keeper.
    Read(Box<Face>),
}

/// The face of a row: that of a listed cell isn't copied. Contracts see the face.
#[derive(Drop)]
pub struct RowFace<'a> {
    place: Place<'a>,
}

impl<'a> Model for RowFace<'a> {
    ghost use Rattle.cd_cell.specs.FaceView.{FaceView};
    ghost use Rattle.cd_count.specs.RowFaces.{face_at};

    ghost Value = { FaceView };

    ghost view = { λ f. face_at f.place };
}

impl<'a> RowFace<'a> {
    /// The face of a listed cell, where it stands. Takes no memory.
    pub fn listed(face: &'a Face) -> RowFace<'a>
        ensures { result ≡ face.now }
    {
        RowFace {
            place: Place::Listed(face),
        }
    }

    /// A face that was read.
    pub fn read(alloc: Global, face: Face) -> Result<RowFace<'a>, Memory>
        ensures { IfOk result (λ kept. kept ≡ face) }
    {
        Ok(RowFace {
            place: Place::Read(Box::new(alloc, face)?),
        })
    }

    /// The face.
    pub fn get(&self) -> &Face
        ensures { result.now ≡ self.now }
    {
        match &self.place {
            Place::Listed(face) => face,
            Place::Read(face) => face,
        }
    }
}
