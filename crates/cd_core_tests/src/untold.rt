ghost use Rattle.std.specs.Prelude.{◌≡◌};

use cd_base::Hash256;
use cd_keeper::{Batch, KeepFault, Keeper, MemoryKeeper};
use std::alloc::Global;

/// A keeper in memory of which chosen calls fail. It doesn't tell contracts what it holds, so that a core may take it
/// over with anything in it.
#[derive(Drop)]
pub(crate) struct Untold {
    pub(crate) inner: MemoryKeeper,
}

impl Untold {
    /// A keeper that holds nothing.
    pub(crate) fn new(alloc: Global, fails: Vec<u64>) -> Untold {
        Untold {
            inner: MemoryKeeper::new(alloc, fails),
        }
    }
}

impl Keeper for Untold {
    ghost use Rattle.std.specs.Prelude.{None, length};

    ghost held = { λ _. None };

    ghost trail = { λ _. None };

    ghost batches = { λ keeper. length keeper.inner.trail };

    ghost faults = { λ keeper. keeper.inner.faults };

    ghost reads = { λ keeper. keeper.inner.reads };

    fn get_cell(&mut self, key: &Hash256) -> Result<Option<Vec<u8>>, KeepFault> {
        self.inner.get_cell(key)
    }

    fn next_cell(
        &mut self,
        after: Option<Hash256>,
    ) -> Result<Option<(Hash256, Vec<u8>)>, KeepFault> {
        self.inner.next_cell(after)
    }

    fn get_desc(&mut self, key: &[u8; 80]) -> Result<Option<Vec<u8>>, KeepFault> {
        self.inner.get_desc(key)
    }

    fn next_desc(
        &mut self,
        after: Option<[u8; 80]>,
    ) -> Result<Option<([u8; 80], Vec<u8>)>, KeepFault> {
        self.inner.next_desc(after)
    }

    fn apply(&mut self, batch: &Batch) -> Result<(), KeepFault> {
        self.inner.apply(batch)
    }
}
