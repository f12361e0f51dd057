ghost use Rattle.std.specs.Prelude.{IfSome};
ghost use Rattle.cd_cell.specs.GoodFace.{IsGoodFace};

use cd_base::Hash256;
use cd_cell::{Face, NewCell, Sha};
use cd_event::{LookFault, LookUp};
use std::alloc::{AllocError, Global};
use std::collections::BTreeMap;

/// A look at cells in memory. It tells no state, and never fails.
#[derive(Drop)]
pub struct ListedLook {
    alloc: Global,
    cells: BTreeMap<Hash256, Face>,
    asked: u64,
}

impl ListedLook {
    /// A look at these cells that was asked nothing.
    pub fn of(alloc: Global, listed: &[NewCell]) -> Result<ListedLook, AllocError> {
        let mut cells = BTreeMap::new(alloc);
        for cell in listed {
            cells.insert(cell.hash, cell.face)?;
        }
        Ok(ListedLook {
            alloc,
            cells,
            asked: 0,
        })
    }

    /// How many hashes were asked.
    pub fn asked(&self) -> u64 {
        self.asked
    }

    // The face under a hash, where it passes the check.
    fn face(&self, hash: &Hash256) -> Option<Face>
        ensures { IfSome result IsGoodFace }
    {
        match self.cells.get(hash) {
            Some(face) if face.check().is_ok() => Some(*face),
            _ => None,
        }
    }
}

impl LookUp for ListedLook {
    ghost use Rattle.std.specs.Prelude.{None};

    type Hash = Sha;

    ghost tree = { λ _. None };

    ghost asked = { λ l. l.asked };

    ghost faults = { λ _. 0 };

    ghost ready = { λ _. Unit {0} };

    ghost goes = { λ _ _. Unit {0} };

    ghost fails = { λ _ _. Unit {0} };

    fn look(&mut self, hashes: &[Hash256]) -> Result<Vec<Option<Face>>, LookFault> {
        let mut found = Vec::new(self.alloc);
        for hash in hashes {
            match found.push(self.face(hash)) {
                Ok(()) => {}
                Err(_) => return Err(LookFault::Memory),
            }
        }
        self.asked = self.asked.saturating_add(hashes.len() as u64);
        Ok(found)
    }

    ghost stays = { λ _. tt };

    ghost further = { λ _ _ _ _ _. tt };

    ghost fails_later = { λ _ _ _ _ _. tt };
}
