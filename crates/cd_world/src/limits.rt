/// How many live pins a worker may have.
pub const MOST_PINS: u32 = 64;
