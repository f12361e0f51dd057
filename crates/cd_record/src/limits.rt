/// The greatest count of references that a record may have: 2^48 - 1.
pub const GREATEST_COUNT: u64 = 281_474_976_710_655;
