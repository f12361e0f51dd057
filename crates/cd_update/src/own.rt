ghost use Rattle.std.specs.Prelude.{◌≡◌, [], ◌∷◌, ◌++◌, map, OnOk, OnErr};
ghost use Rattle.std.specs.List.{list_any};
ghost use Rattle.cd_cell.specs.Infos.{rep_of_info};
ghost use Rattle.cd_cell.specs.Levels.{info_of_face};
ghost use Rattle.cd_cell.specs.Equality.{same_face};
ghost use Rattle.cd_update.specs.EachOnce.{with_new};
ghost use Rattle.cd_cell.specs.Indexes.{IsIndex};

use cd_base::Memory;
use cd_cell::{ChildInfo, Face, Hash32, Index};
use std::alloc::Global;

/// Own cells in the order in which they came, each once, with what they show.
#[derive(Drop)]
pub(crate) struct Own {
    pub cells: Vec<Face>,
    pub infos: Vec<ChildInfo>,
    pub index: Index,
    pub ghost indexed: { IsIndex index (map rep_of_info infos.items) },
}

/// Whether a face is among these.
fn is_among(faces: &[Face], face: &Face) -> bool
    ensures { result ≡ list_any (same_face face.now) faces.now }
{
    for other in faces {
        if *face == *other {
            return true;
        }
    }
    false
}

impl Own {
    /// No cell.
    pub fn new(alloc: Global) -> Own
        ensures cells { result.cells.items ≡ [] }
        ensures infos { result.infos.items ≡ [] }
    {
        Own {
            cells: Vec::new(alloc),
            infos: Vec::new(alloc),
            index: Index::new(alloc),
        }
    }

    /// Whether a face with this info is here. It is found by its hash; where another one has it, all are looked at.
    fn has<H: Hash32>(&self, face: &Face, info: &ChildInfo) -> bool
        requires info { info.now ≡ info_of_face H.digest_of face.now }
        requires infos { self.now.infos.items ≡ map (info_of_face H.digest_of) self.now.cells.items }
        ensures { result ≡ list_any (same_face face.now) self.now.cells.items }
    {
        match self.index.place(&info.rep()) {
            None => false,
            Some(place) if self.cells[place] == *face => true,
            Some(_) => is_among(&self.cells, face),
        }
    }

    /// What one cell more shows.
    fn put_info(&mut self, info: ChildInfo) -> Result<(), Memory>
        ensures infos { OnOk result (self.new.infos.items ≡ self.old.infos.items ++ info ∷ []) }
        ensures cells { self.new.cells.items ≡ self.old.cells.items }
        ensures kept { OnErr result (self.new.infos.items ≡ self.old.infos.items) }
    {
        let place = self.infos.len();
        self.infos.push(info)?;
        match self.index.push(info.rep(), place) {
            Ok(()) => Ok(()),
            Err(fault) => {
                self.infos.pop();
                Err(fault)
            }
        }
    }

    /// One cell more, where it isn't there.
    pub fn add<H: Hash32>(&mut self, face: Face, info: ChildInfo) -> Result<(), Memory>
        requires info { info ≡ info_of_face H.digest_of face }
        requires infos { self.old.infos.items ≡ map (info_of_face H.digest_of) self.old.cells.items }
        ensures cells { OnOk result (self.new.cells.items ≡ with_new same_face self.old.cells.items face) }
        ensures infos { OnOk result (self.new.infos.items ≡ map (info_of_face H.digest_of) self.new.cells.items) }
        ensures kept_cells { OnErr result (self.new.cells.items ≡ self.old.cells.items) }
        ensures kept_infos { OnErr result (self.new.infos.items ≡ self.old.infos.items) }
    {
        if self.has::<H>(&face, &info) {
            return Ok(());
        }
        self.cells.push(face)?;
        match self.put_info(info) {
            Ok(()) => Ok(()),
            Err(fault) => {
                self.cells.pop();
                Err(fault)
            }
        }
    }
}
