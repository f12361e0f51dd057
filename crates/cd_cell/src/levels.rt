ghost use Rattle.std.specs.Prelude.{◌≡◌, ◌≢◌, ℕ, ◌+◌, ◌*◌, ◌≤◌, ◌<◌, [], ◌∷◌, ◌++◌, length, Some, None, take, drop, slice_index};
ghost use Rattle.cd_base.specs.declared.hash.Hash256.{Hash256};
ghost use Rattle.cd_cell.specs.Infos.{all_masks, depth_above};
ghost use Rattle.cd_cell.specs.Levels.{kind_of_face, is_merkle, mask_of_face, level_below, descriptor1, descriptor2, depths_text, hashes_text, representation, next_depth, plain_depth, next_hash, plain_hash, by_level};

use crate::digest_text::DigestText;
use crate::{Bits, ChildInfo, Face, Hash32, Kind, Mask};
use cd_base::Hash256;

/// The kind of a cell, if it has one.
pub fn kind_of(face: &Face) -> Option<Kind>
    ensures { result ≡ kind_of_face face.now }
{
    if !face.exotic() {
        return Some(Kind::Ordinary);
    }
    match face.bits().byte(0)? {
        1 => Some(Kind::Pruned),
        2 => Some(Kind::Library),
        3 => Some(Kind::Proof),
        4 => Some(Kind::Update),
        _ => None,
    }
}

/// The masks of the children, joined.
pub fn all_masks(kids: &[ChildInfo]) -> Mask
    ensures { result ≡ all_masks kids.now }
{
    let mut mask = Mask::NONE;
    for kid in kids {
        mask = mask.or(kid.mask);
    }
    mask
}

/// The level at which a cell takes its children for its own level `l`.
pub fn level_below(merkle: bool, l: u8) -> u8
    requires { l ≤ 3 }
    ensures value { result ≡ level_below merkle l }
    ensures small { result ≤ 3 }
{
    if merkle && l < 3 { l + 1 } else { l }
}

/// One more than the greatest depth of the children at a level, or 0 without children.
pub fn depth_above(kids: &[ChildInfo], level: u8) -> u32
    requires { level ≤ 3 }
    ensures value { result ≡ depth_above level kids.now }
    ensures small { result ≤ 65536 }
{
    let mut depth = 0;
    for kid in kids {
        depth = depth.max(u32::from(kid.depths[level as usize]) + 1);
    }
    depth
}

/// What is hashed for a cell: the descriptors, the contents, the children's depths and their hashes at a level.
pub fn text_of(face: &Face, mask: Mask, contents: &[u8], level: u8) -> DigestText
    requires level { level ≤ 3 }
    requires short { length contents.now ≤ 128 }
    ensures { result ≡ representation face.now mask contents.now level }
{
    let mut text = head_of(face, mask);
    text.extend(contents);
    put_depths(&mut text, face.kids(), level);
    put_hashes(&mut text, face.kids(), level);
    text
}

// The children's depths at a level, behind the others.
fn put_depths(text: &mut DigestText, kids: &[ChildInfo], level: u8)
    requires level { level ≤ 3 }
    requires room { length text.old + 2 * length kids.now ≤ 266 }
    ensures value { text.new ≡ text.old ++ depths_text level kids.now }
    ensures len { length text.new ≡ length text.old + 2 * length kids.now }
{
    for kid in kids {
        text.extend(&kid.depths[level as usize].to_be_bytes());
    }
}

// The children's hashes at a level, behind the others.
fn put_hashes(text: &mut DigestText, kids: &[ChildInfo], level: u8)
    requires level { level ≤ 3 }
    requires room { length text.old + 32 * length kids.now ≤ 266 }
    ensures { text.new ≡ text.old ++ hashes_text level kids.now }
{
    for kid in kids {
        text.extend(&kid.hashes[level as usize].0);
    }
}

// The two descriptors.
fn head_of(face: &Face, mask: Mask) -> DigestText
    ensures { result ≡ descriptor1 face.now mask ∷ descriptor2 face.now.bits ∷ [] }
{
    let mut text = DigestText::new();
    text.extend(&face.descriptors(mask));
    text
}

/// The mask of a cell that is no pruned branch.
pub fn plain_mask(face: &Face, kind: Kind) -> Mask
    requires kind { kind_of_face face.now ≡ Some kind }
    requires plain { kind ≢ Kind.Pruned }
    ensures { result ≡ mask_of_face face.now }
{
    match kind {
        Kind::Ordinary => all_masks(face.kids()),
        Kind::Pruned => unreachable!(),
        Kind::Library => Mask::NONE,
        Kind::Proof | Kind::Update => all_masks(face.kids()).shifted(),
    }
}

/// The depths of a cell at the four levels, where it is no pruned branch.
#[tactic(auto, unfolding(crate::specs::Levels::plain_depth))]
pub fn plain_depths(face: &Face, mask: Mask, merkle: bool) -> [u32; 4]
    requires mask { mask_of_face face.now ≡ mask }
    requires merkle { is_merkle (kind_of_face face.now) ≡ merkle }
    ensures { result ≡ by_level (plain_depth face.now) }
{
    let zero = depth_above(face.kids(), level_below(merkle, 0));
    let one = depth_at(face, mask, merkle, 1, zero);
    let two = depth_at(face, mask, merkle, 2, one);
    let three = depth_at(face, mask, merkle, 3, two);
    [zero, one, two, three]
}

// The depth at a level above 0, by that of the level below.
fn depth_at(face: &Face, mask: Mask, merkle: bool, l: u8, below: u32) -> u32
    requires mask { mask_of_face face.now ≡ mask }
    requires merkle { is_merkle (kind_of_face face.now) ≡ merkle }
    requires level { l ≤ 3 }
    ensures { result ≡ next_depth face.now l below }
{
    if !mask.significant(l) {
        return below;
    }
    depth_above(face.kids(), level_below(merkle, l))
}

/// The hashes of a cell at the four levels, where it is no pruned branch: one digest for each level that is
/// significant.
#[tactic(auto, unfolding(crate::specs::Levels::plain_hash))]
pub fn plain_hashes<H: Hash32>(face: &Face, mask: Mask, merkle: bool) -> [Hash256; 4]
    requires mask { mask_of_face face.now ≡ mask }
    requires merkle { is_merkle (kind_of_face face.now) ≡ merkle }
    ensures { result ≡ by_level (plain_hash H.digest_of face.now) }
{
    let text = text_of(face, Mask::NONE, face.bits().data(), level_below(merkle, 0));
    let zero = H::digest(text.bytes());
    let one = hash_at::<H>(face, mask, merkle, 1, zero);
    let two = hash_at::<H>(face, mask, merkle, 2, one);
    let three = hash_at::<H>(face, mask, merkle, 3, two);
    [zero, one, two, three]
}

// The hash at a level above 0, by that of the level below.
fn hash_at<H: Hash32>(face: &Face, mask: Mask, merkle: bool, l: u8, below: Hash256) -> Hash256
    requires mask { mask_of_face face.now ≡ mask }
    requires merkle { is_merkle (kind_of_face face.now) ≡ merkle }
    requires level { l ≤ 3 }
    ensures { result ≡ next_hash H.digest_of face.now l below }
{
    if !mask.significant(l) {
        return below;
    }
    let text = text_of(face, mask.apply(l), &below.0, level_below(merkle, l));
    H::digest(text.bytes())
}
