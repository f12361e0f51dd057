ghost use Rattle.std.specs.Prelude.{◌≡◌, ◌+◌, ◌*◌, ◌≤◌, ◌<◌, length, take, drop, slice_index};

use cd_base::Hash256;

/// The hash that stands in the data from a byte on.
pub fn hash_in(bytes: &[u8], at: usize) -> Hash256
    requires { at + 32 ≤ length bytes.now }
    ensures { result ≡ record { 0 = take 32 (drop at bytes.now) } }
{
    let part = &bytes[at..at + 32];
    let mut hash = [0; 32];
    hash.copy_from_slice(part);
    Hash256(hash)
}

/// The depth that stands in the data from a byte on.
pub fn depth_in(bytes: &[u8], at: usize) -> u16
    requires { at + 2 ≤ length bytes.now }
    ensures { result ≡ 256 * slice_index bytes.now at + slice_index bytes.now (at + 1) }
{
    256 * u16::from(bytes[at]) + u16::from(bytes[at + 1])
}
