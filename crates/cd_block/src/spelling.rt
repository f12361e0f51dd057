ghost use Rattle.std.specs.Prelude.{◌≡◌, ◌<◌, ◌^◌, IfOk, IfSome, string_bytes};
ghost use Rattle.std.specs.List.{list_all, list_any};
ghost use Rattle.std.specs.Char.{is_ascii_digit};
ghost use Rattle.std.specs.Option.{option_map};
ghost use Rattle.cd_block.specs.declared.block.BlockId.{BlockId};
ghost use Rattle.cd_block.specs.Block.{IsBlockId};
ghost use Rattle.cd_block.specs.Spelling.{id_text};
ghost use Rattle.cd_block.specs.Parsing as spec;

use crate::block::BlockId;
use crate::shard::ShardId;
use cd_base::{Hash256, Memory};
use hex::FromHex;
use std::alloc::Global;
use std::fmt::Write;

/// The longest spelling: two numbers of 11 and 10 digits, 144 hex digits, and six signs.
const MAX_LEN: usize = 171;

/// The one spelling of an id, `(W,S,N):R:F`: the workchain and the seqno in decimal, the shard, the root hash and
/// the file hash in lower-case hex.
#[tactic(auto, unfolding(crate::specs::Spelling::id_text))]
pub fn print_id(alloc: Global, id: &BlockId) -> Result<String, Memory>
    ensures { IfOk result (λ text. string_bytes text ≡ id_text id.now) }
{
    let workchain = id.shard_id.workchain;
    let seqno = id.seqno;
    let shard = hex::encode(alloc, id.shard_id.shard.to_be_bytes())?;
    let root = id.root;
    let file = id.file;
    let mut text = String::with_capacity(alloc, MAX_LEN)?;
    text.push_str("(")?;
    write!(text, "{workchain}")?;
    text.push_str(",")?;
    text.push_str(&shard)?;
    text.push_str(",")?;
    write!(text, "{seqno}")?;
    text.push_str("):")?;
    write!(text, "{root}")?;
    text.push_str(":")?;
    write!(text, "{file}")?;
    Ok(text)
}

/// What stands behind a sign at the front.
fn behind(text: &str, sign: char) -> Option<&str>
    requires { sign < 128 }
    ensures { option_map (λ rest. rest.now) result ≡ spec.behind sign text.now }
{
    text.strip_prefix(sign)
}

/// What stands before and behind the first such sign.
fn around(text: &str, sign: char) -> Option<(&str, &str)>
    requires { sign < 128 }
    ensures { option_map (λ parts. (parts.0.now, parts.1.now)) result ≡ spec.around sign text.now }
{
    text.split_once(sign)
}

fn are_digits(text: &[u8]) -> bool
    ensures { result ≡ list_all is_ascii_digit text.now }
{
    text.iter().all(|c| c.is_ascii_digit())
}

fn has_upper_case(text: &[u8]) -> bool
    ensures { result ≡ list_any spec.is_upper_case text.now }
{
    text.iter().any(|c| c.is_ascii_uppercase())
}

/// Whether a text is decimal digits with no needless leading zero.
#[tactic(auto, unfolding(crate::specs::Parsing::is_plain))]
fn is_plain(text: &[u8]) -> bool
    ensures { result ≡ spec.is_plain text.now }
{
    match text {
        [] | [b'0', _, ..] => false,
        _ => are_digits(text),
    }
}

#[tactic(auto, unfolding(crate::specs::Parsing::number_of))]
fn decimal(text: &str) -> Option<u32>
    ensures { result ≡ spec.number_of (2 ^ 32) text.now }
{
    if !is_plain(text.as_bytes()) {
        return None;
    }
    text.parse().ok()
}

#[tactic(auto, unfolding(crate::specs::Parsing::from_zero))]
fn from_zero(magnitude: u32) -> Option<i32>
    ensures { result ≡ spec.from_zero magnitude }
{
    i32::try_from(magnitude).ok()
}

#[tactic(auto, unfolding(crate::specs::Parsing::below_zero))]
fn below_zero(magnitude: u32) -> Option<i32>
    ensures { result ≡ spec.below_zero magnitude }
{
    if magnitude == 0 {
        return None;
    }
    i32::try_from(-i64::from(magnitude)).ok()
}

#[tactic(auto, unfolding(crate::specs::Parsing::signed_of))]
fn signed_decimal(text: &str) -> Option<i32>
    ensures { result ≡ spec.signed_of (spec.behind 45 text.now) text.now }
{
    match behind(text, '-') {
        None => from_zero(decimal(text)?),
        Some(digits) => below_zero(decimal(digits)?),
    }
}

/// So many bytes in lower-case hex.
#[tactic(auto, unfolding(crate::specs::Parsing::hex_of))]
fn lower_hex<const N: usize>(text: &str) -> Option<[u8; N]>
    ensures { result ≡ spec.hex_of N text.now }
{
    if has_upper_case(text.as_bytes()) {
        return None;
    }
    <[u8; N] as FromHex>::from_hex(text).ok()
}

#[tactic(auto, unfolding(crate::specs::Parsing::id_in))]
fn id_in(text: &str) -> Option<BlockId>
    ensures { result ≡ spec.id_in text.now }
{
    let (workchain, rest) = around(behind(text, '(')?, ',')?;
    let (shard, rest) = around(rest, ',')?;
    let (seqno, rest) = around(rest, ')')?;
    let (root, file) = around(behind(rest, ':')?, ':')?;
    Some(BlockId {
        shard_id: ShardId {
            workchain: signed_decimal(workchain)?,
            shard: u64::from_be_bytes(lower_hex(shard)?),
        },
        seqno: decimal(seqno)?,
        root: Hash256(lower_hex(root)?),
        file: Hash256(lower_hex(file)?),
    })
}

/// The id that a whole text spells, as `print_id` writes it; None where it is no spelling.
pub fn parse_id(text: &str) -> Option<BlockId>
    ensures found { IfSome result (λ id. text.now ≡ id_text id) }
    ensures only { (id : BlockId) → IsBlockId id → text.now ≡ id_text id → result ≡ Some id }
{
    id_in(text)
}
