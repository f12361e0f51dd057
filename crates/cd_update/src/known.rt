ghost use Rattle.std.specs.Prelude.{◌≡◌, [], length, map, All, OnOk, OnErr};
ghost use Rattle.std.specs.List.{list_any};
ghost use Rattle.cd_cell.specs.Infos.{rep_of_info};
ghost use Rattle.cd_cell.specs.Equality.{same_info};
ghost use Rattle.cd_update.specs.EachOnce.{with_new};
ghost use Rattle.cd_cell.specs.Indexes.{IsIndex};
ghost use Rattle.cd_update.specs.Pairing.{IsOldInfo};

use cd_base::Memory;
use cd_cell::{ChildInfo, Index, Listed};
use std::alloc::Global;

/// The old cells that the walk over an old half met, those that it doesn't show included: what each of them
/// shows, in preorder, each once.
#[derive(Drop)]
pub struct Known {
    pub infos: Listed<ChildInfo>,
    pub index: Index,
    pub ghost old: { All IsOldInfo infos },
    pub ghost indexed: { IsIndex index (map rep_of_info infos) },
}

/// Known infos on their way into a `Known`.
#[derive(Drop)]
pub(crate) struct Infos {
    pub all: Vec<ChildInfo>,
    pub index: Index,
    pub ghost indexed: { IsIndex index (map rep_of_info all.items) },
}

/// Whether an info is among these, which are found by the hash at level 3. Where another one has this hash, all
/// are looked at.
pub(crate) fn has(infos: &[ChildInfo], index: &Index, info: &ChildInfo) -> bool
    requires { IsIndex index.now (map rep_of_info infos.now) }
    ensures { result ≡ list_any (same_info info.now) infos.now }
{
    match index.place(&info.rep()) {
        None => false,
        Some(place) if infos[place] == *info => true,
        Some(_) => is_among(infos, info),
    }
}

/// Whether an info is among these.
fn is_among(infos: &[ChildInfo], info: &ChildInfo) -> bool
    ensures { result ≡ list_any (same_info info.now) infos.now }
{
    for other in infos {
        if *info == *other {
            return true;
        }
    }
    false
}

impl Infos {
    /// No info.
    pub fn new(alloc: Global) -> Infos
        ensures { result.all.items ≡ [] }
    {
        Infos {
            all: Vec::new(alloc),
            index: Index::new(alloc),
        }
    }

    /// One info more, where it isn't there.
    pub fn add(&mut self, info: ChildInfo) -> Result<(), Memory>
        ensures all { OnOk result (self.new.all.items ≡ with_new same_info self.old.all.items info) }
        ensures kept { OnErr result (self.new.all.items ≡ self.old.all.items) }
    {
        if has(&self.all, &self.index, &info) {
            return Ok(());
        }
        let place = self.all.len();
        self.all.push(info)?;
        match self.index.push(info.rep(), place) {
            Ok(()) => Ok(()),
            Err(fault) => {
                self.all.pop();
                Err(fault)
            }
        }
    }
}
