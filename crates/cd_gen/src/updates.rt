ghost use Rattle.std.specs.Prelude.{◌≡◌, ◌+◌, ◌-◌, ◌*◌, ◌^◌, ◌≤◌, ◌<◌, [], ◌∷◌, ◌++◌, length, IfOk, OnOk};
ghost use Rattle.cd_cell.specs.Infos.{info_depth};
ghost use Rattle.cd_cell.specs.Levels.{info_of_face};
ghost use Rattle.cd_cell.specs.Tree.{Tree, info_of};
ghost use Rattle.cd_gen.specs.States.{sha, over, some_written, full, shown};
ghost use Rattle.cd_gen.specs.Listing.{hash_bytes, depth_bytes, pruned_face, update_face, faces, infos_of, at_level_0, IsListed, IsListedAfter};

use crate::cell::Cell;
use crate::cells::list;
use crate::states::{Owner, bits_of, inner, leaf, leaves_under};
use cd_base::Memory;
use cd_cell::{ChildInfo, Face, Mask};
use std::alloc::{AllocError, Global};

/// The block of a seqno, which writes each sixteenth leaf of its chain's state.
#[derive(Clone, Copy)]
pub struct Block {
    pub owner: Owner,
    pub seqno: u32,
    pub ghost some: { 0 < seqno },
}

impl Block {
    /// Whether the block writes one of so many leaves from the first on.
    fn writes_some(&self, first: u16, count: u16) -> bool
        requires { first + count ≤ 512 }
        ensures { result ≡ some_written self.now.owner.number self.now.seqno first count }
    {
        let rest = ((u64::from(self.seqno) + self.owner.number % 16) % 16) as u16;
        (first..first + count).any(|j| j % 16 == rest)
    }
}

/// The contents of a pruned branch of mask 1 in the place of a cell that shows this.
fn pruned_text(info: &ChildInfo) -> [u8; 36]
    ensures text { result ≡ 1 ∷ 1 ∷ hash_bytes info.now ++ depth_bytes info.now }
    ensures low { info_depth info.now 0 < 2 ^ 16 }
{
    let depth = info.depth_at(0);
    let mut bytes = [0; 36];
    bytes[0] = 1;
    bytes[1] = 1;
    bytes[34..].copy_from_slice(&depth.to_be_bytes());
    bytes[2..34].copy_from_slice(&info.hashes[0].0);
    bytes
}

/// A pruned branch in the place of a cell that shows this.
fn pruned(info: &ChildInfo) -> Face
    ensures face { result ≡ pruned_face info.now }
    ensures shown { at_level_0 (info_of_face sha result) ≡ at_level_0 info.now }
{
    let text = pruned_text(info);
    Face::new(true, bits_of(&text), &[])
}

/// What a cell of a state shows, by what a cell shows that an update has in its place: hash and depth at level 0, at each
/// level.
fn plain(info: &ChildInfo) -> ChildInfo
    ensures { result ≡ at_level_0 info.now }
{
    ChildInfo {
        mask: Mask::NONE,
        hashes: [info.hash_at(0); 4],
        depths: [info.depth_at(0); 4],
    }
}

/// The contents of a Merkle update: the hashes of both halves, then their depths.
fn update_text(alloc: Global, old: &ChildInfo, new: &ChildInfo) -> Result<Vec<u8>, AllocError>
    ensures text { IfOk result (λ text. text.items
        ≡ 4 ∷ hash_bytes old.now ++ hash_bytes new.now ++ depth_bytes old.now ++ depth_bytes new.now) }
    ensures long { IfOk result (λ text. length text.items ≡ 69) }
{
    let mut text = Vec::with_capacity(alloc, 69)?;
    text.push(4)?;
    text.extend_from_slice(&old.hashes[0].0)?;
    text.extend_from_slice(&new.hashes[0].0)?;
    text.extend_from_slice(&old.depths[0].to_be_bytes())?;
    text.extend_from_slice(&new.depths[0].to_be_bytes())?;
    Ok(text)
}

/// The Merkle update between two halves.
pub fn update(alloc: Global, old: &ChildInfo, new: &ChildInfo) -> Result<Face, AllocError>
    ensures { IfOk result (λ face. face ≡ update_face old.now new.now) }
{
    let text = update_text(alloc, old, new)?;
    Ok(Face::new(true, bits_of(&text), &[*old, *new]))
}

/// What the root of a tree shows, by what its cells show.
fn root_of(infos: &[ChildInfo]) -> ChildInfo
    requires { 0 < length infos.now }
    ensures { (t : Tree) → infos.now ≡ infos_of t → result ≡ info_of sha t }
{
    infos[infos.len() - 1]
}

/// What the cells of the right half show, and those of the left half, of so many levels each.
fn halves(infos: &[ChildInfo], levels: u32) -> (&[ChildInfo], &[ChildInfo])
    requires levels { levels ≤ 8 }
    requires long { length infos.now + 1 ≡ 2 ^ levels * 4 }
    ensures { (left right : Tree) → length (infos_of left) + 1 ≡ 2 ^ levels * 2
        → length (infos_of right) + 1 ≡ 2 ^ levels * 2 → infos.now ≡ infos_of (over left right)
        → (result.0.now ≡ infos_of right) × (result.1.now ≡ infos_of left) }
{
    let half = 2 * leaves_under(levels) as usize - 1;
    (&infos[..half], &infos[half..2 * half])
}

/// Lists what the update by a block shows of the state before it, of so many levels over the leaves from the first on.
/// `state` is what the cells there show in that state.
pub fn list_before(
    cells: &mut Vec<Cell>,
    state: &[ChildInfo],
    block: &Block,
    levels: u32,
    first: u16,
) -> Result<ChildInfo, Memory>
    requires levels { levels ≤ 9 }
    requires leaves { first + 2 ^ levels ≤ 512 }
    requires state { state.now ≡ infos_of (full block.now.owner.number block.now.owner.chain
        (block.now.seqno - 1) levels first) }
    ensures { IfOk result (λ info. IsListed (shown block.now.owner.number block.now.owner.chain
        block.now.seqno (block.now.seqno - 1) levels first) cells.old.items cells.new.items info) }
{
    if !block.writes_some(first, leaves_under(levels)) {
        return list(cells, pruned(&root_of(state)));
    }
    if levels == 0 {
        return list(
            cells,
            leaf(block.owner, first, block.seqno.saturating_sub(16)),
        );
    }
    let half = levels - 1;
    let (right, left) = halves(state, half);
    let right = list_before(cells, right, block, half, first + leaves_under(half))?;
    let left = list_before(cells, left, block, half, first)?;
    list(cells, inner(&left, &right))
}

/// Lists what the update by a block shows of the block's own state, and keeps what the cells of that state show, of so many
/// levels over the leaves from the first on. `state` is what the cells there show in the state before.
pub fn list_after(
    cells: &mut Vec<Cell>,
    infos: &mut Vec<ChildInfo>,
    state: &[ChildInfo],
    block: &Block,
    levels: u32,
    first: u16,
) -> Result<ChildInfo, Memory>
    requires levels { levels ≤ 9 }
    requires leaves { first + 2 ^ levels ≤ 512 }
    requires state { state.now ≡ infos_of (full block.now.owner.number block.now.owner.chain
        (block.now.seqno - 1) levels first) }
    ensures { IfOk result (λ info. IsListedAfter
        (shown block.now.owner.number block.now.owner.chain block.now.seqno block.now.seqno levels first)
        (full block.now.owner.number block.now.owner.chain block.now.seqno levels first)
        cells.old.items cells.new.items infos.old.items infos.new.items info) }
{
    if !block.writes_some(first, leaves_under(levels)) {
        infos.extend_from_slice(state)?;
        return list(cells, pruned(&root_of(state)));
    }
    if levels == 0 {
        return list_kept(cells, infos, leaf(block.owner, first, block.seqno));
    }
    let half = levels - 1;
    let (right, left) = halves(state, half);
    let right = list_after(cells, infos, right, block, half, first + leaves_under(half))?;
    let left = list_after(cells, infos, left, block, half, first)?;
    list_kept(cells, infos, inner(&left, &right))
}

/// Lists a cell, and keeps what the cell of the state shows in whose place it stands.
fn list_kept(
    cells: &mut Vec<Cell>,
    infos: &mut Vec<ChildInfo>,
    face: Face,
) -> Result<ChildInfo, Memory>
    ensures listed { OnOk result (faces cells.new.items ≡ faces cells.old.items ++ face ∷ []) }
    ensures kept { IfOk result (λ info. infos.new.items ≡ infos.old.items ++ at_level_0 info ∷ []) }
    ensures info { IfOk result (λ info. info ≡ info_of_face sha face) }
{
    let info = list(cells, face)?;
    infos.push(plain(&info))?;
    Ok(info)
}
