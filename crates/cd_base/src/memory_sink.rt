ghost use Rattle.std.specs.Prelude.{◌≡◌, ◌++◌, [], ◌+◌, ◌<◌, ◌≤◌, ◌↔◌, take, length, Contains, IfOk, IsOk, IsErr, OnOk, OnErr};
ghost use Rattle.cd_base.specs.Counts.{HasCause, one_more};
ghost use Rattle.cd_base.specs.Told.{Got};
ghost use Rattle.cd_base.specs.Memories.{SteadySinkView, SinkView};

use crate::answers::Failed;
use crate::counts::one_more;
use crate::sink::Sink;
use std::alloc::Global;
use std::marker::Model;

/// A sink in memory that fails only where it can't grow, and counts that.
#[derive(Drop)]
pub struct SteadySink {
    bytes: Vec<u8>,
    faults: u64,
}

impl Model for SteadySink {
    ghost use Rattle.cd_base.specs.Memories.{SteadySinkView};

    ghost Value = { SteadySinkView };

    ghost view = { λ sink. record { taken = sink.bytes.items; faults = sink.faults } };
}

impl SteadySink {
    /// A sink that has taken nothing yet.
    pub fn new(alloc: Global) -> SteadySink
        ensures { result ≡ record { taken = []; faults = 0 } }
    {
        SteadySink {
            bytes: Vec::new(alloc),
            faults: 0,
        }
    }

    /// The bytes taken.
    pub fn taken(&self) -> &[u8]
        ensures { result.now ≡ self.now.taken }
    {
        &self.bytes
    }

    /// How often it could not grow.
    pub fn faults(&self) -> u64
        ensures { result ≡ self.now.faults }
    {
        self.faults
    }
}

impl Sink for SteadySink {
    ghost use Rattle.std.specs.Prelude.{Some};

    ghost taken = { λ sink. Some sink.taken };

    ghost faults = { λ sink. sink.faults };

    fn write(&mut self, piece: &[u8]) -> Result<usize, Failed>
        requires { 0 < length piece.now }
        ensures count { IfOk result (λ count. count ≡ length piece.now) }
        ensures ok { OnOk result (self.new
            ≡ record self.old { taken = self.old.taken ++ piece.now }) }
        ensures failed { OnErr result (self.new
            ≡ record self.old { faults = one_more self.old.faults }) }
    {
        if self.bytes.extend_from_slice(piece).is_err() {
            self.faults = one_more(self.faults);
            return Err(Failed);
        }
        Ok(piece.len())
    }
}

/// A sink in memory of which chosen calls fail, as a test wants it. A call that can't grow fails and is counted too.
#[derive(Drop)]
pub struct MemorySink {
    sink: SteadySink,
    fails: Vec<u64>,
    calls: u64,
    faults: u64,
}

impl Model for MemorySink {
    ghost use Rattle.cd_base.specs.Memories.{SinkView};

    ghost Value = { SinkView };

    ghost view = { λ s. record {
      taken = s.sink.taken;
      fails = s.fails.items;
      calls = s.calls;
      faults = s.faults;
    } };
}

impl MemorySink {
    /// A sink that has taken nothing yet. `fails` has the numbers, from 0, of the calls that fail.
    pub fn new(alloc: Global, fails: Vec<u64>) -> MemorySink
        ensures { result ≡ record { taken = []; fails = fails.items; calls = 0; faults = 0 } }
    {
        MemorySink {
            sink: SteadySink::new(alloc),
            fails,
            calls: 0,
            faults: 0,
        }
    }

    /// The bytes taken.
    pub fn taken(&self) -> &[u8]
        ensures { result.now ≡ self.now.taken }
    {
        self.sink.taken()
    }

    /// How many calls failed.
    pub fn faults(&self) -> u64
        ensures { result ≡ self.now.faults }
    {
        self.faults
    }
}

impl Sink for MemorySink {
    ghost use Rattle.std.specs.Prelude.{Some};

    ghost taken = { λ sink. Some sink.taken };

    ghost faults = { λ sink. sink.faults };

    fn write(&mut self, piece: &[u8]) -> Result<usize, Failed>
        requires { 0 < length piece.now }
        ensures fails { Contains self.old.fails self.old.calls → IsErr result }
        ensures count { IfOk result (λ count. count ≡ length piece.now) }
        ensures ok { OnOk result (self.new
            ≡ record self.old {
              taken = self.old.taken ++ piece.now;
              calls = one_more self.old.calls;
            }) }
        ensures failed { OnErr result (self.new
            ≡ record self.old {
              calls = one_more self.old.calls;
              faults = one_more self.old.faults;
            }) }
    {
        let fails = self.fails.contains(&self.calls);
        self.calls = one_more(self.calls);
        if fails {
            self.faults = one_more(self.faults);
            return Err(Failed);
        }
        match self.sink.write(piece) {
            Ok(count) => Ok(count),
            Err(failed) => {
                self.faults = one_more(self.faults);
                Err(failed)
            }
        }
    }
}
