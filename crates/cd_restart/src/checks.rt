//! What is refused of cells and blocks that were read, while their references are counted.

ghost use Rattle.std.specs.Prelude.{◌≡◌, ℕ, ◌-◌, ◌^◌, List, [], ◌∷◌, ◌++◌, map, min, IfSome, IfOk, IfErr, OnOk, MatchResult};
ghost use Rattle.std.specs.List.{sum_by};
ghost use Rattle.cd_base.specs.declared.hash.Hash256.{Hash256};
ghost use Rattle.cd_cell.specs.Infos.{rep_of_info};
ghost use Rattle.cd_restart.specs.Lists.{first_of};
ghost use Rattle.cd_restart.specs.Stored.{Stored};
ghost use Rattle.cd_restart.specs.ScanFaults as faults;
ghost use Rattle.cd_restart.specs.Rows.{AreRowsOf, root_references};
ghost use Rattle.cd_restart.specs.Answers.{Answers, IsOwn};

use crate::row::Row;
use crate::rows::{refer_kid, refer_root};
use crate::scan_fault::ScanFault;
use cd_base::Hash256;
use cd_block::{Descr, lineage};
use cd_cell::{ChildInfo, Mask};

/// Whether the block may have its parents, and a zero state has the root that its name says.
fn has_lineage(block: &Descr) -> bool
    ensures { result ≡ faults.has_lineage block.now }
{
    let parents = block.parents.as_slice();
    lineage(&block.id, parents).is_ok() && (!parents.is_empty() || block.id.root == block.root)
}

/// Refuses the first block whose description doesn't fit its name.
pub fn check_lineages(blocks: &[Descr]) -> Result<(), ScanFault>
    ensures answers { Answers (first_of faults.lineage_refusal blocks.now) result }
    ensures own { IfErr result IsOwn }
{
    for block in blocks {
        if !has_lineage(block) {
            return Err(ScanFault::Lineage {
                key: block.id.to_key(),
            });
        }
    }
    Ok(())
}

/// Counts the reference to a child. Refuses a child without a record, and gives the fault of one that is another cell.
fn check_kid(
    parent: &Hash256,
    kid: &ChildInfo,
    rows: &mut [Row],
) -> Result<Option<ScanFault>, ScanFault>
    ensures answers { (H : List ℕ → Hash256) (cells : List Stored) (hashes : List Hash256)
        → AreRowsOf H cells hashes rows.old → Answers (faults.missing_kid H cells parent.now kid.now) result }
    ensures other { IfOk result (λ other. (H : List ℕ → Hash256) (cells : List Stored) (hashes : List Hash256)
        → AreRowsOf H cells hashes rows.old → other ≡ faults.other_kid H cells parent.now kid.now) }
    ensures counted { OnOk result ((H : List ℕ → Hash256) (cells : List Stored) (hashes : List Hash256)
        → AreRowsOf H cells hashes rows.old → AreRowsOf H cells (hashes ++ rep_of_info kid.now ∷ []) rows.new) }
    ensures own { MatchResult result (λ found. IfSome found IsOwn) IsOwn }
{
    let child = kid.rep();
    let parent = *parent;
    match refer_kid(rows, kid)? {
        Some(true) => Ok(None),
        Some(false) => Ok(Some(ScanFault::ChildInfo { parent, child })),
        None => Err(ScanFault::Missing { parent, child }),
    }
}

/// Counts the references of a cell to its children. Refuses the first child without a record, and gives the fault of
/// the first one that is another cell.
pub fn check_kids_of(
    parent: &Hash256,
    kids: &[ChildInfo],
    rows: &mut [Row],
) -> Result<Option<ScanFault>, ScanFault>
    ensures answers { (H : List ℕ → Hash256) (cells : List Stored) (hashes : List Hash256)
        → AreRowsOf H cells hashes rows.old
        → Answers (first_of (faults.missing_kid H cells parent.now) kids.now) result }
    ensures other { IfOk result (λ other. (H : List ℕ → Hash256) (cells : List Stored) (hashes : List Hash256)
        → AreRowsOf H cells hashes rows.old → other ≡ first_of (faults.other_kid H cells parent.now) kids.now) }
    ensures counted { OnOk result ((H : List ℕ → Hash256) (cells : List Stored) (hashes : List Hash256)
        → AreRowsOf H cells hashes rows.old → AreRowsOf H cells (hashes ++ map rep_of_info kids.now) rows.new) }
    ensures own { MatchResult result (λ found. IfSome found IsOwn) IsOwn }
{
    let mut other = None;
    for kid in kids {
        let found = check_kid(parent, kid, rows)?;
        other = other.or(found);
    }
    Ok(other)
}

/// Counts the reference of a block to its root. Refuses a root without a cell of mask 0, and gives the fault of one of
/// another depth.
fn check_root(block: &Descr, rows: &mut [Row]) -> Result<Option<ScanFault>, ScanFault>
    ensures answers { (H : List ℕ → Hash256) (cells : List Stored) (hashes : List Hash256)
        → AreRowsOf H cells hashes rows.old → Answers (faults.root_fault cells block.now) result }
    ensures deep { IfOk result (λ deep. (H : List ℕ → Hash256) (cells : List Stored) (hashes : List Hash256)
        → AreRowsOf H cells hashes rows.old → deep ≡ faults.depth_fault cells block.now) }
    ensures counted { OnOk result ((H : List ℕ → Hash256) (cells : List Stored) (hashes : List Hash256)
        → AreRowsOf H cells hashes rows.old → AreRowsOf H cells (hashes ++ block.now.root ∷ []) rows.new) }
    ensures own { MatchResult result (λ found. IfSome found IsOwn) IsOwn }
{
    let key = block.id.to_key();
    let root = block.root;
    let stated = block.depth;
    match refer_root(rows, &root)? {
        Some((mask, real)) => {
            if mask != Mask::NONE {
                return Err(ScanFault::RootMissing { key, root });
            }
            if stated != real {
                return Ok(Some(ScanFault::RootDepth { key, stated, real }));
            }
            Ok(None)
        }
        None => Err(ScanFault::RootMissing { key, root }),
    }
}

/// Counts the references of blocks to their roots. Refuses the first root that isn't there, and else the first one of
/// another depth than is described.
pub fn check_roots(blocks: &[Descr], rows: &mut [Row]) -> Result<(), ScanFault>
    ensures answers { (H : List ℕ → Hash256) (cells : List Stored) (hashes : List Hash256)
        → AreRowsOf H cells hashes rows.old → Answers (faults.roots_fault cells blocks.now) result }
    ensures counted { OnOk result ((H : List ℕ → Hash256) (cells : List Stored) (hashes : List Hash256)
        → AreRowsOf H cells hashes rows.old → AreRowsOf H cells (hashes ++ root_references blocks.now) rows.new) }
    ensures own { IfErr result IsOwn }
{
    let mut deep = None;
    for block in blocks {
        let found = check_root(block, rows)?;
        deep = deep.or(found);
    }
    match deep {
        Some(fault) => Err(fault),
        None => Ok(()),
    }
}

/// Refuses the first cell whose stored count isn't the number of its references, and gives the sum of all counts, no
/// more than the last u64.
pub fn check_counts(rows: &[Row]) -> Result<u64, ScanFault>
    ensures answers { Answers (first_of faults.row_fault rows.now) result }
    ensures sum { IfOk result (λ counts. counts ≡ min (sum_by (λ r. r.stored) rows.now) (2 ^ 64 - 1)) }
    ensures own { IfErr result IsOwn }
{
    let mut counts: u64 = 0;
    for row in rows {
        let (stored, counted) = (row.stored(), row.counted());
        if stored != counted {
            return Err(ScanFault::Count {
                hash: row.hash(),
                stored,
                counted,
            });
        }
        counts = counts.saturating_add(stored);
    }
    Ok(counts)
}
