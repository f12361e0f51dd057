/// The most bytes that an input may have: 128 MiB.
pub const INPUT_LIMIT: u64 = 134_217_728;
