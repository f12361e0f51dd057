ghost use Rattle.std.specs.Prelude.{◌≡◌, IsTrue, IfSome};
ghost use Rattle.std.specs.Option.{option_map};
ghost use Rattle.std.specs.Ordering.{is_lt};
ghost use Rattle.cd_keeper.specs.Contents.{is_above};
ghost use Rattle.cd_keeper.specs.Shown.{hash_bytes};

use cd_base::Hash256;
use std::cmp::Ordering;

/// The hash that is the key of a cell's row. `None` where the key has another length, or isn't above a bound.
pub fn hash_above(after: &Option<Hash256>, key: &[u8]) -> Option<Hash256>
    ensures { IfSome result (λ found. IsTrue (is_above (option_map hash_bytes after.now) found.0)) }
{
    if key.len() != 32 {
        return None;
    }
    let mut bytes = [0; 32];
    bytes.copy_from_slice(key);
    let hash = Hash256(bytes);
    if is_hash_above(after, &hash) {
        Some(hash)
    } else {
        None
    }
}

/// The same of a description's key.
pub fn desc_key_above(after: &Option<[u8; 80]>, key: &[u8]) -> Option<[u8; 80]>
    ensures { IfSome result (λ found. IsTrue (is_above after.now found)) }
{
    if key.len() != 80 {
        return None;
    }
    let mut bytes = [0; 80];
    bytes.copy_from_slice(key);
    if is_desc_key_above(after, &bytes) {
        Some(bytes)
    } else {
        None
    }
}

fn is_hash_above(after: &Option<Hash256>, key: &Hash256) -> bool
    ensures { result ≡ is_above (option_map hash_bytes after.now) key.now.0 }
{
    match after {
        None => true,
        Some(bound) => is_below(bound, key),
    }
}

fn is_desc_key_above(after: &Option<[u8; 80]>, key: &[u8; 80]) -> bool
    ensures { result ≡ is_above after.now key.now }
{
    match after {
        None => true,
        Some(bound) => is_below(bound, key),
    }
}

fn is_below<K: Ord>(low: &K, high: &K) -> bool
    ensures { result ≡ is_lt (K.cmp low.now high.now) }
{
    low.cmp(high) == Ordering::Less
}
