//! Clients that tell when one of them is dropped.
use cd_base::{Failed, one_more};
use cd_fan::SliceClient;
use std::alloc::Global;
use std::sync::Arc;
use std::sync::atomic::{AtomicU64, Ordering};

/// A number that several clients see.
pub type Count = Arc<AtomicU64, Global>;

/// Fails at each call, and counts its drop.
pub struct Failing {
    pub drops: Count,
    pub faults: u64,
}

impl Drop for Failing {
    fn drop(self) {
        self.drops.fetch_add(1, Ordering::SeqCst);
        let Failing {
            drops: _drops,
            faults: _faults,
        } = self;
    }
}

impl SliceClient for Failing {
    ghost use Rattle.std.specs.Prelude.{None, false};

    ghost got = { λ _. None };

    ghost faults = { λ c. c.faults };

    ghost steady = { λ _. false };

    fn take(&mut self, _offset: u64, _piece: &[u8]) -> Result<(), Failed> {
        self.faults = one_more(self.faults);
        Err(Failed)
    }

    fn ended(&mut self) -> Result<(), Failed> {
        self.faults = one_more(self.faults);
        Err(Failed)
    }
}

/// Never fails, and notes at each piece how many clients were dropped before it.
#[derive(Drop)]
pub struct Watching {
    pub drops: Count,
    pub seen: Count,
}

impl SliceClient for Watching {
    ghost use Rattle.std.specs.Prelude.{None, true};

    ghost got = { λ _. None };

    ghost faults = { λ _. 0 };

    ghost steady = { λ _. true };

    fn take(&mut self, _offset: u64, _piece: &[u8]) -> Result<(), Failed> {
        self.seen
            .store(self.drops.load(Ordering::SeqCst), Ordering::SeqCst);
        Ok(())
    }

    fn ended(&mut self) -> Result<(), Failed> {
        Ok(())
    }
}
