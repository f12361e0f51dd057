//! What a scan remembers of each stored cell.

ghost use Rattle.std.specs.Prelude.{◌≡◌, ◌+◌, length, IfOk, OnOk};
ghost use Rattle.cd_cell.specs.Equality.{same_info};
ghost use Rattle.cd_cell.specs.Infos.{rep_of_info, height_of_info};
ghost use Rattle.cd_cell.specs.Steady.{IsFlat};
ghost use Rattle.cd_restart.specs.RowView.{shown_by};

use cd_base::{Hash256, Memory};
use cd_cell::{ChildInfo, Mask};
use std::alloc::{AllocError, Global};
use std::marker::Model;

/// What a cell shows of itself, in little space: one of mask 0 shows one hash and one depth at all levels.
#[derive(Drop)]
pub enum Shown {
    Plain { hash: Hash256, depth: u16 },
    Masked { info: Box<ChildInfo> },
}

impl Shown {
    fn of(alloc: Global, info: &ChildInfo) -> Result<Shown, AllocError>
        requires flat { IsFlat info.now }
        requires hashes { length info.now.hashes ≡ 4 }
        requires depths { length info.now.depths ≡ 4 }
        ensures { IfOk result (λ shown. shown_by shown ≡ info.now) }
    {
        if info.mask == Mask::NONE {
            return Ok(Shown::Plain {
                hash: info.rep(),
                depth: info.height(),
            });
        }
        Ok(Shown::Masked {
            info: Box::new(alloc, *info)?,
        })
    }

    /// Whether this is what a parent says of its child.
    fn is(&self, kid: &ChildInfo) -> bool
        ensures { result ≡ same_info kid.now (shown_by self.now) }
    {
        match self {
            Shown::Plain { hash, depth } => *kid == plain_info(*hash, *depth),
            Shown::Masked { info } => *kid == **info,
        }
    }

    fn mask(&self) -> Mask
        ensures { result ≡ (shown_by self.now).mask }
    {
        match self {
            Shown::Plain { .. } => Mask::NONE,
            Shown::Masked { info } => info.mask,
        }
    }

    fn height(&self) -> u16
        ensures { result ≡ height_of_info (shown_by self.now) }
    {
        match self {
            Shown::Plain { depth, .. } => *depth,
            Shown::Masked { info } => info.height(),
        }
    }
}

/// What a cell of mask 0 shows.
fn plain_info(hash: Hash256, depth: u16) -> ChildInfo
    ensures { result ≡ shown_by (Shown.Plain hash depth) }
{
    ChildInfo {
        mask: Mask::NONE,
        hashes: [hash; 4],
        depths: [depth; 4],
    }
}

/// A stored cell: its hash, its stored count, the references to it that were counted so far, and what it shows.
#[derive(Drop)]
pub struct Row {
    hash: Hash256,
    stored: u64,
    counted: u64,
    shown: Shown,
}

impl Model for Row {
    ghost use Rattle.cd_restart.specs.RowView.{RowView, shown_by};

    ghost Value = { RowView };

    ghost view = { λ r. record { hash = r.hash; stored = r.stored; counted = r.counted; shown = shown_by r.shown } };
}

impl Row {
    /// A cell to which no reference was counted yet.
    pub fn new(
        alloc: Global,
        hash: Hash256,
        stored: u64,
        info: &ChildInfo,
    ) -> Result<Row, AllocError>
        requires flat { IsFlat info.now }
        requires hashes { length info.now.hashes ≡ 4 }
        requires depths { length info.now.depths ≡ 4 }
        ensures { IfOk result (λ row. row ≡ record { hash = hash; stored = stored; counted = 0; shown = info.now }) }
    {
        Ok(Row {
            hash,
            stored,
            counted: 0,
            shown: Shown::of(alloc, info)?,
        })
    }

    /// The cell's hash.
    pub fn hash(&self) -> Hash256
        ensures { result ≡ self.now.hash }
    {
        self.hash
    }

    /// The stored count.
    pub fn stored(&self) -> u64
        ensures { result ≡ self.now.stored }
    {
        self.stored
    }

    /// The references that were counted so far.
    pub fn counted(&self) -> u64
        ensures { result ≡ self.now.counted }
    {
        self.counted
    }

    /// Whether the cell shows what a parent says of it.
    pub fn shows(&self, kid: &ChildInfo) -> bool
        ensures { result ≡ same_info kid.now self.now.shown }
    {
        self.shown.is(kid)
    }

    /// The cell's mask.
    pub fn mask(&self) -> Mask
        ensures { result ≡ self.now.shown.mask }
    {
        self.shown.mask()
    }

    /// The cell's depth at level 3.
    pub fn height(&self) -> u16
        ensures { result ≡ height_of_info self.now.shown }
    {
        self.shown.height()
    }

    /// Counts one reference more. No memory could hold as many as it takes to pass the last u64.
    pub fn raise(&mut self) -> Result<(), Memory>
        ensures { OnOk result (self.new ≡ record self.old { counted = self.old.counted + 1 }) }
    {
        let Some(counted) = self.counted.checked_add(1) else {
            return Err(Memory);
        };
        self.counted = counted;
        Ok(())
    }
}
