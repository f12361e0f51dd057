//! Hold-ups and a client that wait for what another worker does.
use cd_base::Failed;
use cd_event::Who;
use cd_fan::SliceClient;
use cd_run::Holdup;
use std::alloc::Global;
use std::sync::Arc;
use std::sync::atomic::{AtomicU64, Ordering};
use std::test::Fail;
use std::thread::yield_now;

/// How often a hold looks before it is given up.
const LOOKS: u32 = 20_000_000;

/// Something that happens once, and that several threads see.
#[derive(Drop)]
pub(crate) struct Signal {
    came: Arc<AtomicU64, Global>,
}

impl Signal {
    pub(crate) fn new(alloc: Global) -> Result<Signal, Fail> {
        Ok(Signal {
            came: Arc::new(alloc, AtomicU64::new(0))?,
        })
    }

    /// The same signal once more.
    pub(crate) fn share(&self) -> Result<Signal, Fail> {
        Ok(Signal {
            came: Arc::try_clone(&self.came)?,
        })
    }

    fn give(&self) {
        self.came.store(1, Ordering::SeqCst);
    }

    pub(crate) fn has_come(&self) -> bool {
        self.came.load(Ordering::SeqCst) == 1
    }

    /// Waits for it. Where it doesn't come, this is told by another one.
    fn wait_or(&self, late: &Signal) {
        for _ in 0..LOOKS {
            if self.has_come() {
                return;
            }
            yield_now();
        }
        late.give();
    }
}

/// Holds the merge of one of two workers until the other one's is over.
#[derive(Drop)]
pub(crate) struct Turnstile {
    pub held: u16,
    pub merged: Signal,
    pub late: Signal,
}

impl Holdup for Turnstile {
    fn before_merge(&self, who: Who) {
        if who.worker == self.held {
            self.merged.wait_or(&self.late);
        }
    }

    fn after_merge(&self, who: Who) {
        if who.worker != self.held {
            self.merged.give();
        }
    }
}

/// Holds each merge until a client takes a piece.
#[derive(Drop)]
pub(crate) struct WithClient {
    pub taking: Signal,
    pub merged: Signal,
    pub late: Signal,
}

impl Holdup for WithClient {
    fn before_merge(&self, _who: Who) {
        self.taking.wait_or(&self.late);
    }

    fn after_merge(&self, _who: Who) {
        self.merged.give();
    }
}

/// Takes its first piece no sooner than a merge is over.
#[derive(Drop)]
pub(crate) struct Holding {
    pub taking: Signal,
    pub merged: Signal,
    pub late: Signal,
}

impl SliceClient for Holding {
    ghost use Rattle.std.specs.Prelude.{None, true};

    ghost got = { λ _. None };

    ghost faults = { λ _. 0 };

    ghost steady = { λ _. true };

    fn take(&mut self, _offset: u64, _piece: &[u8]) -> Result<(), Failed> {
        self.taking.give();
        self.merged.wait_or(&self.late);
        Ok(())
    }

    fn ended(&mut self) -> Result<(), Failed> {
        Ok(())
    }
}
