ghost use Rattle.std.specs.Prelude.{◌≡◌, ◌↔◌, ◌<◌, ◌≤◌, ℕ, [], length, map, take, slice_index_or, All, IsTrue};
ghost use Rattle.cd_cell.specs.Infos.{info_hash, info_depth};
ghost use Rattle.cd_cell.specs.GoodFace.{IsGoodFace};
ghost use Rattle.cd_cell.specs.Tree.{children, info_of, face_of, rep_of};
ghost use Rattle.cd_cell.specs.LevelRecursion.{tree_mask, tree_depth, tree_hash};
ghost use Rattle.cd_cell.specs.Bags.{bag_tree, face_at, refs_at, IsLower, IsBag};

use crate::{ChildInfo, Face, Hash32, face_info};
use std::marker::{Model, PhantomData};

/// The entries of a bag of cells (TON whitepaper, "bag of cells"): cells whose children are entries behind
/// them, each with its face, and the numbers of those that are roots. Two entries of one representation
/// hash have one face. Contracts see it without its hash function.
#[derive(Drop)]
pub struct Bag<H: Hash32> {
    // The faces of the entries, by their numbers from 0.
    cells: Vec<Face>,
    // For each entry the numbers of its children, in their places; behind them stands any filler.
    refs: Vec<[u32; 4]>,
    // The numbers of the roots.
    roots: Vec<u32>,
    of: PhantomData<H>,
}

impl<H: Hash32> Model for Bag<H> {
    ghost use Rattle.cd_cell.specs.BagView.{BagView};
    ghost use Rattle.cd_cell.specs.Bags.{IsBag};

    ghost Value = { BagView };

    ghost view = { λ b. record { cells = b.cells.items; refs = b.refs.items; roots = b.roots.items } };

    ghost invariant = { λ b. IsBag H.digest_of b.cells.items b.refs.items b.roots.items };
}

impl<H: Hash32> Bag<H> {
    /// Takes no memory: a reader has filled the lists.
    pub fn new(cells: Vec<Face>, refs: Vec<[u32; 4]>, roots: Vec<u32>) -> Bag<H>
        requires { IsBag H.digest_of cells.items refs.items roots.items }
        ensures cells { result.cells ≡ cells.items }
        ensures refs { result.refs ≡ refs.items }
        ensures roots { result.roots ≡ roots.items }
    {
        Bag {
            cells,
            refs,
            roots,
            of: PhantomData,
        }
    }

    /// The faces of the entries, by their numbers from 0.
    pub fn cells(&self) -> &[Face]
        ensures value { result.now ≡ self.now.cells }
        ensures kept { IsBag H.digest_of self.now.cells self.now.refs self.now.roots }
    {
        &self.cells
    }

    /// For each entry the numbers of its children, in their places; behind them stands any filler.
    pub fn refs(&self) -> &[[u32; 4]]
        ensures value { result.now ≡ self.now.refs }
        ensures kept { IsBag H.digest_of self.now.cells self.now.refs self.now.roots }
    {
        &self.refs
    }

    /// The numbers of the roots.
    pub fn roots(&self) -> &[u32]
        ensures value { result.now ≡ self.now.roots }
        ensures kept { IsBag H.digest_of self.now.cells self.now.refs self.now.roots }
    {
        &self.roots
    }

    /// The face of an entry, which is that of its cell.
    pub fn face(&self, number: u32) -> &Face
        requires { number < length self.now.cells }
        ensures face { result.now ≡ face_at self.now.cells number }
        ensures good { IsGoodFace result.now }
        ensures cell { face_of H.digest_of (bag_tree self.now number) ≡ result.now }
        ensures kept { IsBag H.digest_of self.now.cells self.now.refs self.now.roots }
    {
        let cells = self.cells();
        &cells[number as usize]
    }

    /// The numbers of the children of an entry, in their places: they are entries behind it, of lower cells.
    pub fn children(&self, number: u32) -> &[u32]
        requires { number < length self.now.cells }
        ensures count { length result.now ≡ length (face_at self.now.cells number).kids }
        ensures numbers { result.now ≡ refs_at self.now number }
        ensures behind { All (λ r. (number < r) × (r < length self.now.cells)) result.now }
        ensures cells { children (bag_tree self.now number) ≡ map (bag_tree self.now) result.now }
        ensures lower { All (IsLower H.digest_of self.now number) result.now }
    {
        let count = self.face(number).refs() as usize;
        let refs = self.refs();
        let four = &refs[number as usize];
        &four[..count]
    }

    /// What the cell of an entry shows, level by level.
    pub fn info(&self, number: u32) -> ChildInfo
        requires { number < length self.now.cells }
        ensures info { result ≡ info_of H.digest_of (bag_tree self.now number) }
        ensures kept { IsBag H.digest_of self.now.cells self.now.refs self.now.roots }
        // Over the whole tree: mask, depths and hashes are those of the recursion over levels and children.
        ensures mask { result.mask ≡ tree_mask (bag_tree self.now number) }
        ensures depths { (l : ℕ) → l ≤ 3 → info_depth result l ≡ tree_depth (bag_tree self.now number) l }
        ensures hashes { (l : ℕ) → l ≤ 3 → info_hash result l ≡ tree_hash H.digest_of (bag_tree self.now number) l }
    {
        face_info::<H>(self.face(number))
    }

    /// Whether two entries are one cell. They are where their hashes are equal.
    pub fn same(&self, a: u32, b: u32) -> bool
        requires a { a < length self.now.cells }
        requires b { b < length self.now.cells }
        ensures value { IsTrue result ↔ (bag_tree self.now a ≡ bag_tree self.now b) }
        ensures reps { IsTrue result
            ↔ (rep_of H.digest_of (bag_tree self.now a) ≡ rep_of H.digest_of (bag_tree self.now b)) }
    {
        *self.face(a) == *self.face(b)
    }
}
