ghost use Rattle.std.specs.Prelude.{◌≡◌, ◌++◌, [], ◌+◌, length, Contains, IsErr, OnOk, OnErr};
ghost use Rattle.cd_base.specs.Counts.{one_more};
ghost use Rattle.cd_fan.specs.Clients.{ClientView};

use crate::client::SliceClient;
use cd_base::{Failed, one_more};
use std::alloc::Global;
use std::marker::Model;

/// A client in memory of which chosen calls fail, as a test wants it. A call that can't grow fails and is counted too.
#[derive(Drop)]
pub struct MemoryClient {
    bytes: Vec<u8>,
    fails: Vec<u64>,
    calls: u64,
    faults: u64,
}

impl Model for MemoryClient {
    ghost use Rattle.cd_fan.specs.Clients.{ClientView};

    ghost Value = { ClientView };

    ghost view = { λ c. record {
      got = c.bytes.items;
      fails = c.fails.items;
      calls = c.calls;
      faults = c.faults;
    } };
}

impl MemoryClient {
    /// A client that has got nothing yet. `fails` has the numbers, from 0, of the calls that fail, `take` and `ended`
    /// together.
    pub fn new(alloc: Global, fails: Vec<u64>) -> MemoryClient
        ensures { result ≡ record { got = []; fails = fails.items; calls = 0; faults = 0 } }
    {
        MemoryClient {
            bytes: Vec::new(alloc),
            fails,
            calls: 0,
            faults: 0,
        }
    }

    /// The bytes got.
    pub fn got(&self) -> &[u8]
        ensures { result.now ≡ self.now.got }
    {
        &self.bytes
    }

    /// How many calls failed.
    pub fn faults(&self) -> u64
        ensures { result ≡ self.now.faults }
    {
        self.faults
    }
}

impl SliceClient for MemoryClient {
    ghost use Rattle.std.specs.Prelude.{Some, false};

    ghost got = { λ c. Some c.got };

    ghost faults = { λ c. c.faults };

    ghost steady = { λ _. false };

    fn take(&mut self, _offset: u64, piece: &[u8]) -> Result<(), Failed>
        ensures fails { Contains self.old.fails self.old.calls → IsErr result }
        ensures ok { OnOk result (self.new ≡ record self.old {
          got = self.old.got ++ piece.now;
          calls = one_more self.old.calls;
        }) }
        ensures failed { OnErr result (self.new ≡ record self.old {
          calls = one_more self.old.calls;
          faults = one_more self.old.faults;
        }) }
    {
        let fails = self.fails.contains(&self.calls);
        self.calls = one_more(self.calls);
        if fails {
            self.faults = one_more(self.faults);
            return Err(Failed);
        }
        if self.bytes.extend_from_slice(piece).is_err() {
            self.faults = one_more(self.faults);
            return Err(Failed);
        }
        Ok(())
    }

    fn ended(&mut self) -> Result<(), Failed>
        ensures fails { Contains self.old.fails self.old.calls → IsErr result }
        ensures ok { OnOk result (self.new ≡ record self.old { calls = one_more self.old.calls }) }
        ensures failed { OnErr result (self.new ≡ record self.old {
          calls = one_more self.old.calls;
          faults = one_more self.old.faults;
        }) }
    {
        let fails = self.fails.contains(&self.calls);
        self.calls = one_more(self.calls);
        if fails {
            self.faults = one_more(self.faults);
            return Err(Failed);
        }
        Ok(())
    }
}
