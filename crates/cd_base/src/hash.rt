use std::fmt;

/// A 32-byte hash, as SHA-256 gives it (FIPS 180-4). Hashes are ordered by their bytes, the first one first, and
/// printed in lower-case hexadecimal.
#[derive(Clone, Copy, Debug, PartialEq, Eq, PartialOrd, Ord, Hash)]
pub struct Hash256(pub [u8; 32]);

impl fmt::Display for Hash256 {
    ghost use Rattle.std.specs.Prelude.{Some};
    ghost use Rattle.hex.specs.Hex.{encode_lower};

    ghost output = { λ hash. Some (encode_lower hash.0) };

    fn fmt<W: fmt::Write>(&self, f: &mut fmt::Formatter<W>) -> fmt::Result {
        let mut text = [0; 64];
        // Two digits a byte fill it.
        let _ = hex::encode_to_slice(self.0, &mut text);
        f.write_str(str::from_utf8(&text).unwrap())
    }
}
