//! The core as the value that goes from turn to turn.
use cd_cell::Hash32;
use cd_core::{Core, CoreStart};
use cd_event::Entry;
use cd_gate::Journaled;
use cd_keeper::Keeper;

/// A core behind a gate.
#[derive(Drop)]
pub struct HeldCore<K: Keeper, H: Hash32> {
    pub(crate) core: Core<K, H>,
}

impl<K: Keeper, H: Hash32> Journaled for HeldCore<K, H> {
    type Entry = Entry<H>;

    type Start = CoreStart<K>;

    ghost number = { λ e. e.who.worker };

    ghost entries = { λ held. held.core.journal };

    ghost start = { λ held. held.core.start };
}
