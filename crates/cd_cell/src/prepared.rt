ghost use Rattle.std.specs.Prelude.{◌≡◌};
ghost use Rattle.cd_cell.specs.Listings.{IsValid};

use crate::{ChildInfo, Hash32, NewCell};
use cd_base::Hash256;
use std::marker::{Model, PhantomData};

/// A tree of cells of mask 0, by its new cells: each cell below the root is listed here or is a cell of the
/// old tree, and each listed cell is reached from the root through listed cells. A kid that no listed cell
/// shows is an old cell. Contracts see it without its hash function.
#[derive(Drop)]
pub struct Prepared<H: Hash32> {
    old: Option<Hash256>,
    root: ChildInfo,
    cells: Vec<NewCell>,
    of: PhantomData<H>,
}

impl<H: Hash32> Model for Prepared<H> {
    ghost use Rattle.cd_cell.specs.PreparedView.{PreparedView};
    ghost use Rattle.cd_cell.specs.Listings.{IsValid};

    ghost Value = { PreparedView };

    ghost view = { λ p. record { old = p.old; root = p.root; cells = p.cells.items } };

    ghost invariant = { λ p. IsValid H.digest_of p.root p.cells.items };
}

impl<H: Hash32> Prepared<H> {
    /// Takes no memory: a preparer has made the list.
    pub fn new(old: Option<Hash256>, root: ChildInfo, cells: Vec<NewCell>) -> Prepared<H>
        requires { IsValid H.digest_of root cells.items }
        ensures old { result.old ≡ old }
        ensures root { result.root ≡ root }
        ensures cells { result.cells ≡ cells.items }
    {
        Prepared {
            old,
            root,
            cells,
            of: PhantomData,
        }
    }

    /// The hash of the old tree, if the value is to be taken over one.
    pub fn old(&self) -> Option<Hash256>
        ensures { result ≡ self.now.old }
    {
        self.old
    }

    /// What the root shows: its mask is 0, and its height at most 1024.
    pub fn root(&self) -> &ChildInfo
        ensures value { result.now ≡ self.now.root }
        ensures kept { IsValid H.digest_of self.now.root self.now.cells }
    {
        &self.root
    }

    /// The new cells in the order of an export: by height, the greatest first, then by hash, the least first.
    /// No hash is listed twice.
    pub fn cells(&self) -> &[NewCell]
        ensures value { result.now ≡ self.now.cells }
        ensures kept { IsValid H.digest_of self.now.root self.now.cells }
    {
        &self.cells
    }
}
