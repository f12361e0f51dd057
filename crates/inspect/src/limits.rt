/// The most bytes that an input may have: 128 MiB, as for the store's program.
pub const INPUT_LIMIT: u64 = 134_217_728;

/// The most bytes that a database file, or its log, may have: 1 GiB. Both are read into memory.
pub const FILE_LIMIT: u64 = 1_073_741_824;
