ghost use Rattle.std.specs.Prelude.{◌≡◌, ◌≢◌, ◌↔◌, ℕ, ◌+◌, ◌*◌, ◌%◌, ◌≤◌, ◌<◌, ◌==◌, Bool, List, Some, length, take, drop, slice_get, slice_index, IsSome, IfSome};
ghost use Rattle.cd_cell.specs.BitText.{data_of, byte_count, first_bits, byte_of_bits, bits_of_byte, filled, data_bits, IsBitData};

use crate::MOST_BITS;
use crate::put::put;
use std::fmt;
use std::marker::Model;

/// The data bits of a cell, 0 to 1023 of them. Contracts see the list of the bits.
#[derive(Clone, Copy)]
pub struct Bits {
    // The bits eight a byte, the highest first; a last byte that isn't full is completed by one 1 and then
    // zeros, and zeros stand behind it.
    bytes: [u8; 128],
    len: u16,
}

impl Model for Bits {
    ghost use Rattle.std.specs.Prelude.{Bool, List, length};
    ghost use Rattle.cd_cell.specs.BitText.{data_of, first_bits, filled, IsBitText};

    ghost Value = { List Bool };

    ghost view = { λ b. first_bits b.len b.bytes };

    ghost invariant = { λ b. IsBitText b.bytes b.len };

    ghost inverse = { λ bs. record { bytes = filled (data_of bs); len = length bs } };
}

impl Bits {
    /// The first `len` bits of the bytes, the highest bit of each byte first; `None` where the bytes have fewer, or
    /// `len` is over 1023.
    pub fn from_slice(bytes: &[u8], len: u16) -> Option<Bits>
        ensures found { IsSome result ↔ ((len ≤ MOST_BITS) × (len ≤ 8 * length bytes.now)) }
        ensures value { IfSome result (λ bits. bits ≡ first_bits len bytes.now) }
    {
        if len > MOST_BITS {
            return None;
        }
        if bytes.len() < (len as usize).div_ceil(8) {
            return None;
        }
        Some(Bits {
            bytes: text_of(bytes, len),
            len,
        })
    }

    /// The bits whose data are these bytes: all bits of the bytes where they are whole, else those before the
    /// lowest set bit of the last byte. `None` where no bits have these data: there are too many bytes, or the last
    /// byte, not whole, is missing, 00 or 80.
    pub fn from_data(bytes: &[u8], whole: bool) -> Option<Bits>
        ensures found { IsSome result ↔ IsBitData whole bytes.now }
        ensures value { IfSome result (λ bits. data_of bits ≡ bytes.now) }
        ensures read { IfSome result (λ bits. bits ≡ data_bits whole bytes.now) }
        ensures whole { IfSome result (λ bits. (length bits % 8 == 0) ≡ whole) }
        ensures only { (bits : List Bool) → length bits ≤ MOST_BITS → data_of bits ≡ bytes.now
            → (length bits % 8 == 0) ≡ whole → result ≡ Some bits }
    {
        if whole {
            if bytes.len() > 127 {
                return None;
            }
            return Bits::from_slice(bytes, 8 * bytes.len() as u16);
        }
        let last = *bytes.last()?;
        if bytes.len() > 128 {
            return None;
        }
        if last % 128 == 0 {
            return None;
        }
        Bits::from_slice(
            bytes,
            8 * bytes.len() as u16 - 1 - last.trailing_zeros() as u16,
        )
    }

    /// The number of the bits, at most 1023.
    pub fn len(&self) -> u16
        ensures value { result ≡ length self.now }
        ensures few { result ≤ MOST_BITS }
    {
        self.len
    }

    /// The bit in a place, counted from 0; `None` where there is none.
    pub fn bit(&self, at: u16) -> Option<bool>
        ensures { result ≡ slice_get self.now at }
    {
        if at >= self.len {
            return None;
        }
        Some(self.bytes[at as usize / 8] >> (7 - at % 8) & 1 == 1)
    }

    /// The eight bits from bit `8 * at` on; `None` where fewer than eight stand there.
    pub fn byte(&self, at: u16) -> Option<u8>
        ensures found { IsSome result ↔ (8 * at + 8 ≤ length self.now) }
        ensures value { IfSome result (λ byte. byte ≡ byte_of_bits (take 8 (drop (8 * at) self.now))) }
        ensures of_data { IfSome result (λ byte. byte ≡ slice_index (data_of self.now) at) }
    {
        if at >= self.len / 8 {
            return None;
        }
        Some(self.bytes[at as usize])
    }

    /// The bits as bytes, the last one completed by one 1 and then zeros where it isn't full (TVM documentation,
    /// "Standard cell representation"): at most 128 bytes.
    pub fn data(&self) -> &[u8]
        ensures value { result.now ≡ data_of self.now }
        ensures len { length result.now ≡ byte_count (length self.now) }
        ensures short { length result.now ≤ 128 }
    {
        &self.bytes[..(self.len as usize).div_ceil(8)]
    }
}

impl PartialEq for Bits {
    ghost use Rattle.std.specs.Prelude.{◌≡◌, ◌↔◌, IsTrue};
    ghost use Rattle.std.specs.Cmp.{partial_equiv_from_equiv};
    ghost use Rattle.cd_cell.specs.Equality.{same_bits, same_bits-laws};

    ghost eq = { same_bits };

    ghost laws = { partial_equiv_from_equiv same_bits-laws };

    fn eq(&self, other: &Bits) -> bool
        ensures test { result ≡ same_bits self.now other.now }
        ensures value { IsTrue result ↔ (self.now ≡ other.now) }
    {
        self.len == other.len && self.data() == other.data()
    }
}

impl Eq for Bits {
    ghost use Rattle.cd_cell.specs.Equality.{same_bits-laws};

    ghost laws = { same_bits-laws };
}

impl fmt::Debug for Bits {
    fn fmt<W: fmt::Write>(&self, f: &mut fmt::Formatter<W>) -> fmt::Result {
        let len = self.len;
        write!(f, "{len} bits ")?;
        for byte in self.data() {
            write!(f, "{byte:02x}")?;
        }
        Ok(())
    }
}

// The data of the first bits of some bytes, with zeros behind them.
fn text_of(bytes: &[u8], len: u16) -> [u8; 128]
    requires few { len ≤ MOST_BITS }
    requires enough { len ≤ 8 * length bytes.now }
    ensures { result ≡ filled (data_of (first_bits len bytes.now)) }
{
    let full = len as usize / 8;
    let kept = len % 8;
    let mut text = [0; 128];
    put(&mut text, 0, &bytes[..full]);
    if kept > 0 {
        text[full] = cut_byte(bytes[full], kept);
    }
    text
}

// The first bits of a byte, completed.
fn cut_byte(byte: u8, kept: u16) -> u8
    requires { kept < 8 }
    ensures { result ≡ byte_of_bits (take kept (bits_of_byte byte)) }
{
    let tag = 128 >> kept;
    byte & !(tag - 1) | tag
}
