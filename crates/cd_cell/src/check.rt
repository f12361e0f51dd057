ghost use Rattle.std.specs.Prelude.{◌≡◌, ◌≢◌, ◌↔◌, ◌+◌, ◌*◌, ◌≤◌, ◌<◌, ℕ, List, length, Some, None, IsOk, IfOk, MatchResult};
ghost use Rattle.std.specs.Result.{result_err};
ghost use Rattle.cd_cell.specs.declared.kind.Kind.TheVariants.{Pruned, Library, Proof, Update};
ghost use Rattle.cd_cell.specs.FaceView.{FaceView};
ghost use Rattle.cd_cell.specs.BitText.{data_of};
ghost use Rattle.cd_cell.specs.Levels.{kind_of_face};
ghost use Rattle.cd_cell.specs.CellFaults.{refs_fault, bits_fault, states_hash, hash_fault, depth_fault, exotic_fault, form_fault, greatest_depth, face_fault};
ghost use Rattle.cd_cell.specs.Fit.{IsPrunedFace, IsFaceFit};
ghost use Rattle.cd_cell.specs.GoodFace.{IsGoodFace};
ghost use Rattle.std.specs.List.{All};
ghost use Rattle.cd_base.specs.declared.hash.Hash256.{Hash256};
ghost use Rattle.cd_cell.specs.Tree.{Tree, children, face_of, IsWellFormed};

use crate::levels::{plain_depths, plain_mask};
use crate::pruned::pruned_depths;
use crate::stated::{depth_in, hash_in};
use crate::{CellFault, Face, GREATEST_DEPTH, Kind, Mask};

impl Face {
    /// The kind of the cell, or the first fault that keeps it from being well-formed where its children are
    /// (TVM documentation, "Cells").
    pub fn check(&self) -> Result<Kind, CellFault>
        ensures exact { MatchResult result
            (λ kind. (face_fault self.now ≡ None) × (kind_of_face self.now ≡ Some kind))
            (λ fault. face_fault self.now ≡ Some fault) }
        ensures fit { IfOk result (λ _. IsFaceFit self.now) }
        ensures good { IfOk result (λ _. IsGoodFace self.now) }
        ensures tree { (H : List ℕ → Hash256) (t : Tree) → face_of H t ≡ self.now
            → All (IsWellFormed H) (children t) → IsOk result ↔ IsWellFormed H t }
    {
        let kind = form(self)?;
        let depth = greatest(self, kind);
        if depth > GREATEST_DEPTH {
            return Err(CellFault::DepthBig { depth });
        }
        // Every face keeps that its bits and children are few, which is a part of being well-formed.
        let _kept = (self.bits().len(), self.refs());
        Ok(kind)
    }
}

// The kind, or the first fault but for the depth.
fn form(face: &Face) -> Result<Kind, CellFault>
    ensures exact { MatchResult result
        (λ kind. (form_fault face.now ≡ None) × (kind_of_face face.now ≡ Some kind))
        (λ fault. form_fault face.now ≡ Some fault) }
    ensures pruned { IfOk result (λ kind. kind ≡ Kind.Pruned → IsPrunedFace face.now) }
{
    if !face.exotic() {
        return Ok(Kind::Ordinary);
    }
    match face.bits().byte(0) {
        None => Err(CellFault::Short),
        Some(1) => {
            pruned(face)?;
            Ok(Kind::Pruned)
        }
        Some(2) => {
            library(face)?;
            Ok(Kind::Library)
        }
        Some(3) => {
            proof(face)?;
            Ok(Kind::Proof)
        }
        Some(4) => {
            update(face)?;
            Ok(Kind::Update)
        }
        Some(value) => Err(CellFault::KindByte { value }),
    }
}

fn pruned(face: &Face) -> Result<(), CellFault>
    ensures { result_err result ≡ exotic_fault Pruned face.now }
{
    refs(face, 0)?;
    let Some(value) = face.bits().byte(1) else {
        return Err(CellFault::Length {
            real: face.bits().len(),
        });
    };
    if value == 0 {
        return Err(CellFault::PrunedMask { value });
    }
    match Mask::of(value) {
        None => Err(CellFault::PrunedMask { value }),
        Some(mask) => bits(face, 16 + 272 * u16::from(mask.count())),
    }
}

fn library(face: &Face) -> Result<(), CellFault>
    ensures { result_err result ≡ exotic_fault Library face.now }
{
    refs(face, 0)?;
    bits(face, 264)
}

fn proof(face: &Face) -> Result<(), CellFault>
    ensures { result_err result ≡ exotic_fault Proof face.now }
{
    refs(face, 1)?;
    bits(face, 280)?;
    stated_hash(face, 0)?;
    stated_depth(face, 0)
}

fn update(face: &Face) -> Result<(), CellFault>
    ensures { result_err result ≡ exotic_fault Update face.now }
{
    refs(face, 2)?;
    bits(face, 552)?;
    stated_hash(face, 0)?;
    stated_hash(face, 1)?;
    stated_depth(face, 0)?;
    stated_depth(face, 1)
}

fn refs(face: &Face, due: u8) -> Result<(), CellFault>
    ensures { result_err result ≡ refs_fault due face.now }
{
    let real = face.refs();
    if real != due {
        return Err(CellFault::Refs { real });
    }
    Ok(())
}

fn bits(face: &Face, due: u16) -> Result<(), CellFault>
    ensures { result_err result ≡ bits_fault due face.now }
{
    let real = face.bits().len();
    if real != due {
        return Err(CellFault::Length { real });
    }
    Ok(())
}

fn stated_hash(face: &Face, place: u8) -> Result<(), CellFault>
    requires there { place < length face.now.kids }
    requires long { 8 * (33 + 32 * place) ≤ length face.now.bits }
    ensures { result_err result ≡ hash_fault face.now place }
{
    if !states_hash(face, place) {
        return Err(CellFault::MerkleHash { place });
    }
    Ok(())
}

// Whether a Merkle cell states the hash of the child in a place.
fn states_hash(face: &Face, place: u8) -> bool
    requires there { place < length face.now.kids }
    requires long { 8 * (33 + 32 * place) ≤ length face.now.bits }
    ensures { result ≡ states_hash face.now place }
{
    let at = 1 + 32 * place as usize;
    hash_in(face.bits().data(), at) == face.kids()[place as usize].hash_at(0)
}

// A Merkle cell states the depth of the child in a place.
fn stated_depth(face: &Face, place: u8) -> Result<(), CellFault>
    requires there { place < length face.now.kids }
    requires long { 8 * (3 + 32 * length face.now.kids + 2 * place) ≤ length face.now.bits }
    ensures { result_err result ≡ depth_fault face.now place }
{
    let at = 1 + 32 * face.refs() as usize + 2 * place as usize;
    let stated = depth_in(face.bits().data(), at);
    if stated != face.kids()[place as usize].depth_at(0) {
        return Err(CellFault::MerkleDepth { place });
    }
    Ok(())
}

// The greatest depth over the four levels.
fn greatest(face: &Face, kind: Kind) -> u32
    requires kind { kind_of_face face.now ≡ Some kind }
    requires pruned { kind ≡ Kind.Pruned → IsPrunedFace face.now }
    ensures { result ≡ greatest_depth face.now }
{
    if kind == Kind::Pruned {
        let depths = pruned_depths(face);
        return u32::from(depths[0].max(depths[1]).max(depths[2].max(depths[3])));
    }
    let merkle = matches!(kind, Kind::Proof | Kind::Update);
    let depths = plain_depths(face, plain_mask(face, kind), merkle);
    depths[0].max(depths[1]).max(depths[2].max(depths[3]))
}
