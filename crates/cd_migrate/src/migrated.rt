/// What a migration went over. Each number stops at the last `u64`.
#[derive(Clone, Copy, Debug, PartialEq, Eq)]
pub struct Migrated {
    /// All records.
    pub records: u64,
    /// Those of version 1, which are of version 2 now.
    pub rewritten: u64,
}
