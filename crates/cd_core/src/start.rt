use cd_world::World;
use std::snapshot::Snapshot;

/// What a core began with. The world and the keeper are for contracts alone.
#[derive(Drop)]
pub struct CoreStart<K> {
    pub world: Snapshot<World>,
    pub keeper: Snapshot<K>,
    /// The greatest count that a cell may have, 1 to 281,474,976,710,655.
    pub limit: u64,
}
