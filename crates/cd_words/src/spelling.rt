ghost use Rattle.std.specs.Prelude.{◌≡◌, ◌↔◌, ◌≤◌, ◌<◌, ◌^◌, ℕ, None, IfSome, IfNone, IsTrue};
ghost use Rattle.std.specs.Prelude.{option_map};
ghost use Rattle.std.specs.List.{list_all};
ghost use Rattle.std.specs.Char.{is_ascii_digit};
ghost use Rattle.std.specs.Result.{result_ok};
ghost use Rattle.std.specs.Fmt as spec;
ghost use Rattle.hex.specs.Hex.{decode_sized};
ghost use Rattle.cd_block.specs.Parsing as parsing;
ghost use Rattle.cd_words.specs.Spelling.{IsNumber, IsWorkchain, IsMax, IsFeedNumber, IsId, HasSpelling};

use crate::names::OptionName;
use cd_base::Hash256;
use cd_block::{BlockId, parse_id};
use hex::FromHex;

/// The greatest workchain that `--workchain` names.
const GREATEST_WORKCHAIN: u64 = 2_147_483_647;

/// The greatest size of a slice, in bytes.
pub const GREATEST_MAX: u32 = 2_097_152;

fn are_digits(text: &[u8]) -> bool
    ensures { result ≡ list_all is_ascii_digit text.now }
{
    text.iter().all(|c| c.is_ascii_digit())
}

/// Whether a text is decimal digits with no needless leading zero.
#[tactic(auto, unfolding(cd_block::specs::Parsing::is_plain))]
fn is_plain(text: &[u8]) -> bool
    ensures { result ≡ parsing.is_plain text.now }
{
    match text {
        [] | [b'0', _, ..] => false,
        _ => are_digits(text),
    }
}

#[tactic(auto, unfolding(cd_block::specs::Parsing::number_of))]
fn decimal(text: &str) -> Option<u64>
    ensures { result ≡ parsing.number_of (2 ^ 64) text.now }
{
    if !is_plain(text.as_bytes()) {
        return None;
    }
    text.parse().ok()
}

/// The number that a text spells in decimal.
fn number(text: &str) -> Option<u64>
    ensures found { IfSome result (λ n. text.now ≡ spec.decimal n) }
    ensures only { (n : ℕ) → n < 2 ^ 64 → text.now ≡ spec.decimal n → result ≡ Some n }
{
    decimal(text)
}

/// The number from the least to the greatest that a text spells in decimal.
fn number_within(text: &str, least: u64, greatest: u64) -> Option<u64>
    ensures found { IfSome result (IsNumber least greatest text.now) }
    ensures none { result ≡ None → (n : ℕ) → ¬ IsNumber least greatest text.now n }
{
    match number(text) {
        Some(number) if least <= number && number <= greatest => Some(number),
        _ => None,
    }
}

/// The workchain that a text spells.
pub fn workchain(text: &str) -> Option<u32>
    ensures found { IfSome result (IsWorkchain text.now) }
    ensures none { result ≡ None → (n : ℕ) → ¬ IsWorkchain text.now n }
{
    let number = number_within(text, 0, GREATEST_WORKCHAIN)?;
    Some(number as u32)
}

/// The greatest size of a slice that a text spells.
pub fn max(text: &str) -> Option<u32>
    ensures found { IfSome result (IsMax text.now) }
    ensures none { result ≡ None → (n : ℕ) → ¬ IsMax text.now n }
{
    let number = number_within(text, 1, u64::from(GREATEST_MAX))?;
    Some(number as u32)
}

/// The number of a feed that a text spells.
pub fn feed_number(text: &str) -> Option<u64>
    ensures found { IfSome result (IsFeedNumber text.now) }
    ensures none { result ≡ None → (n : ℕ) → ¬ IsFeedNumber text.now n }
{
    number_within(text, 0, u64::MAX)
}

/// The hash that a text spells in 64 hexadecimal digits of either case.
pub fn hash(text: &str) -> Option<Hash256>
    ensures { option_map (λ hash. hash.0) result ≡ result_ok (decode_sized text.now 32) }
{
    match <[u8; 32] as FromHex>::from_hex(text) {
        Ok(bytes) => Some(Hash256(bytes)),
        Err(_) => None,
    }
}

/// The block that a text names.
pub fn id(text: &str) -> Option<BlockId>
    ensures found { IfSome result (IsId text.now) }
    ensures none { result ≡ None → (id : BlockId) → ¬ IsId text.now id }
{
    let id = parse_id(text)?;
    id.known();
    Some(id)
}

/// Whether a text is a value that the option may have.
pub fn is_spelt(option: OptionName, text: &str) -> bool
    ensures { IsTrue result ↔ HasSpelling option text.now }
{
    match option {
        OptionName::Workchain => workchain(text).is_some(),
        OptionName::File => hash(text).is_some(),
        OptionName::Id => id(text).is_some(),
        OptionName::Max => max(text).is_some(),
        OptionName::Number => feed_number(text).is_some(),
        OptionName::Db | OptionName::To => true,
    }
}
