/// The most records that one batch of a migration rewrites.
pub const BATCH_RECORDS: usize = 4096;
