ghost use Rattle.std.specs.Prelude.{◌≡◌, ◌+◌, ◌-◌, ◌*◌, ◌^◌, ◌≤◌, ◌<◌, false, [], ◌∷◌, length, IfOk};
ghost use Rattle.cd_cell.specs.BitText.{data_of};
ghost use Rattle.cd_cell.specs.Tree.{face_of};
ghost use Rattle.cd_gen.specs.States as spec;
ghost use Rattle.cd_gen.specs.States.{sha};
ghost use Rattle.cd_gen.specs.Listing.{IsListed};

use crate::cell::Cell;
use crate::cells::list;
use cd_base::Memory;
use cd_cell::{Bits, ChildInfo, Face};

/// What the leaves of a chain's states have in common: the feed's number, and the chain's.
#[derive(Clone, Copy)]
pub struct Owner {
    pub number: u64,
    pub chain: u8,
}

/// All bits of these bytes.
pub fn bits_of(bytes: &[u8]) -> Bits
    requires { length bytes.now ≤ 127 }
    ensures bits { result ≡ spec.bits_of bytes.now }
    ensures data { data_of result ≡ bytes.now }
{
    match Bits::from_slice(bytes, 8 * bytes.len() as u16) {
        Some(bits) => bits,
        None => unreachable!(),
    }
}

#[tactic(auto, unfolding(crate::specs::States::leaf_text))]
fn leaf_text(owner: Owner, j: u16, writer: u32) -> [u8; 15]
    ensures { result ≡ spec.leaf_text owner.number owner.chain j writer }
{
    let mut bytes = [0; 15];
    bytes[..8].copy_from_slice(&owner.number.to_be_bytes());
    bytes[8] = owner.chain;
    bytes[9..11].copy_from_slice(&j.to_be_bytes());
    bytes[11..].copy_from_slice(&writer.to_be_bytes());
    bytes
}

/// Leaf j, as the block of a seqno wrote it.
pub fn leaf(owner: Owner, j: u16, writer: u32) -> Face
    ensures { result ≡ face_of sha (spec.leaf owner.number owner.chain j writer) }
{
    Face::new(false, bits_of(&leaf_text(owner, j, writer)), &[])
}

/// A cell without bits over two others.
pub fn inner(left: &ChildInfo, right: &ChildInfo) -> Face
    ensures { result ≡ record { exotic = false; bits = []; kids = left.now ∷ right.now ∷ [] } }
{
    Face::new(false, bits_of(&[]), &[*left, *right])
}

/// Lists the full tree of so many levels over the leaves of a zero state from the first on.
pub fn list_full(
    cells: &mut Vec<Cell>,
    owner: Owner,
    levels: u32,
    first: u16,
) -> Result<ChildInfo, Memory>
    requires levels { levels ≤ 9 }
    requires leaves { first + 2 ^ levels ≤ 512 }
    ensures { IfOk result (λ info. IsListed (spec.full owner.number owner.chain 0 levels first)
        cells.old.items cells.new.items info) }
{
    if levels == 0 {
        return list(cells, leaf(owner, first, 0));
    }
    let half = levels - 1;
    let right = list_full(cells, owner, half, first + leaves_under(half))?;
    let left = list_full(cells, owner, half, first)?;
    list(cells, inner(&left, &right))
}

/// How many leaves a full tree of so many levels has.
pub fn leaves_under(levels: u32) -> u16
    requires { levels ≤ 9 }
    ensures { result ≡ 2 ^ levels }
{
    match levels {
        0 => 1,
        1 => 2,
        2 => 4,
        3 => 8,
        4 => 16,
        5 => 32,
        6 => 64,
        7 => 128,
        8 => 256,
        _ => 512,
    }
}
