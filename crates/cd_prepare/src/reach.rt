ghost use Rattle.std.specs.Prelude.{◌≡◌, ◌<◌, false, true, [], length, replicate, slice_set, IfOk, OnOk};
ghost use Rattle.cd_cell.specs.Keys.{export_key};
ghost use Rattle.cd_prepare.specs.Reached.{keys_with, AreReached};

use crate::start::Start;
use cd_cell::{ChildInfo, ExportKey, Hash32};
use std::alloc::{AllocError, Global};

/// What is reached so far.
#[derive(Drop)]
struct Reached {
    /// For each entry whether it is reached.
    marks: Vec<bool>,
    /// The key of each entry that is reached.
    keys: Vec<ExportKey>,
}

impl Reached {
    /// Nothing of so many entries.
    fn nothing(alloc: Global, count: usize) -> Result<Reached, AllocError>
        ensures marks { IfOk result (λ reached. reached.marks.items ≡ replicate count false) }
        ensures keys { IfOk result (λ reached. reached.keys.items ≡ []) }
    {
        Ok(Reached {
            marks: vec![in alloc; false; count]?,
            keys: Vec::with_capacity(alloc, count)?,
        })
    }

    /// Marks an entry by what its cell shows. It gets a key where it is reached for the first time.
    fn mark(&mut self, info: &ChildInfo, number: u32) -> Result<(), AllocError>
        requires { number < length self.old.marks.items }
        ensures marks { OnOk result (self.new.marks.items ≡ slice_set self.old.marks.items number true) }
        ensures keys { OnOk result (self.new.keys.items
            ≡ keys_with self.old.marks.items self.old.keys.items (export_key info.now number)) }
    {
        if !self.marks[number as usize] {
            self.keys.push(ExportKey::of(info, number as usize))?;
        }
        self.marks[number as usize] = true;
        Ok(())
    }
}

/// The key of each entry that a root leads to, and of the root itself. The entries are gone over from the root to the
/// last one, since the children of an entry stand behind it.
pub fn reach<H: Hash32>(alloc: Global, root: &Start<'_, H>) -> Result<Vec<ExportKey>, AllocError>
    ensures { IfOk result (λ keys.
        AreReached H.digest_of root.now.bag.now.cells root.now.bag.now.refs root.now.number keys.items) }
{
    let cells = root.bag.cells();
    let refs = root.bag.refs();
    let mut reached = Reached::nothing(alloc, cells.len())?;
    reached.mark(&root.info, root.number)?;
    for number in root.number as usize..cells.len() {
        if reached.marks[number] {
            for (place, kid) in cells[number].kids().iter().enumerate() {
                reached.mark(kid, refs[number][place])?;
            }
        }
    }
    Ok(reached.keys)
}
