ghost use Rattle.std.specs.Prelude.{◌≡◌, ◌^◌, ◌<◌, ◌≤◌, length};
ghost use Rattle.cd_base.specs.Numbers.{from_big, from_little};

/// The number whose bytes these are, the highest first. Of no bytes it is 0.
pub fn from_be(bytes: &[u8]) -> u64
    requires { length bytes.now ≤ 8 }
    ensures value { result ≡ from_big bytes.now }
    ensures fits { result < 256 ^ length bytes.now }
{
    let mut value = 0;
    for byte in bytes {
        value = 256 * value + u64::from(*byte);
    }
    value
}

/// The number whose bytes these are, the lowest first. Of no bytes it is 0.
pub fn from_le(bytes: &[u8]) -> u64
    requires { length bytes.now ≤ 8 }
    ensures value { result ≡ from_little bytes.now }
    ensures fits { result < 256 ^ length bytes.now }
{
    let mut value = 0;
    for i in (0..bytes.len()).rev() {
        value = 256 * value + u64::from(bytes[i]);
    }
    value
}
