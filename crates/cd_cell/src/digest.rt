ghost use Rattle.std.specs.Prelude.{◌≡◌, ℕ, ◌%◌, List, [], ◌∷◌, ◌++◌, length, replicate, sum, refl};
ghost use Rattle.sha2.specs.Sha256.{sha256};
ghost use Rattle.sha2.proofs.Facts256.{length-sha256};
ghost use Rattle.cd_base.specs.declared.hash.Hash256.{Hash256};

use cd_base::Hash256;
use sha2::{Digest, Sha256};

/// A function from bytes to hashes. Nothing is promised of collisions.
pub trait Hash32 {
    /// The function.
    ghost digest_of: { List ℕ → Hash256 };

    /// The hash of these bytes.
    fn digest(bytes: &[u8]) -> Hash256
        ensures { result ≡ digest_of bytes.now };

    ghost has_32_bytes: { (m : List ℕ) → length (let hash = digest_of m in hash.0) ≡ 32 };
}

/// SHA-256 (FIPS 180-4).
#[derive(Clone, Copy, Debug, PartialEq, Eq)]
pub struct Sha;

impl Hash32 for Sha {
    ghost digest_of = { λ m. record { 0 = sha256 m } };

    ghost has_32_bytes = { length-sha256 };

    fn digest(bytes: &[u8]) -> Hash256 {
        Hash256(Sha256::digest(bytes))
    }
}

/// A weak function for tests, whose collisions are easily found: 31 zero bytes, and then the sum of the bytes
/// modulo 256.
#[derive(Clone, Copy, Debug, PartialEq, Eq)]
pub struct WeakSum;

impl Hash32 for WeakSum {
    ghost digest_of = { λ m. record { 0 = replicate 31 0 ++ sum m % 256 ∷ [] } };

    ghost has_32_bytes = { λ m. refl };

    fn digest(bytes: &[u8]) -> Hash256 {
        let mut total = 0u8;
        for byte in bytes {
            total = total.wrapping_add(*byte);
        }
        let mut hash = [0; 32];
        hash[31] = total;
        Hash256(hash)
    }
}
