//! Keys by which cells are put in the order of an export.
ghost use Rattle.std.specs.Prelude.{◌≡◌};
ghost use Rattle.cd_cell.specs.Keys.{key_with, export_key, AreFirst};

use crate::ChildInfo;
use cd_base::Hash256;

/// Where a cell stands in an export: the highest cells first, and of equal height the least hash first.
#[derive(Clone, Copy, PartialEq, Eq, PartialOrd, Ord)]
pub struct ExportRank {
    /// How far the height is below 65,535.
    pub lowness: u16,
    pub hash: Hash256,
}

/// A cell that stands in some list, by its rank in an export.
#[derive(Clone, Copy, PartialEq, Eq, PartialOrd, Ord)]
pub struct ExportKey {
    pub rank: ExportRank,
    /// The place of the cell in its list.
    pub number: usize,
}

impl ExportKey {
    /// The key of a cell of this height under this hash.
    pub fn new(height: u16, hash: Hash256, number: usize) -> ExportKey
        ensures { result ≡ key_with height hash number }
    {
        ExportKey {
            rank: ExportRank {
                lowness: u16::MAX - height,
                hash,
            },
            number,
        }
    }

    /// The key of a cell that shows this.
    pub fn of(info: &ChildInfo, number: usize) -> ExportKey
        ensures { result ≡ export_key info.now number }
    {
        ExportKey::new(info.height(), info.rep(), number)
    }
}

/// Sorts keys, and keeps the first of those of equal rank: the one with the least number.
pub fn sort_keys(keys: &mut Vec<ExportKey>)
    ensures { AreFirst keys.old.items keys.new.items }
{
    keys.sort_unstable();
    keys.dedup_by_key(|key| key.rank);
}
