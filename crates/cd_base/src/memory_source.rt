ghost use Rattle.std.specs.Prelude.{◌≡◌, ◌+◌, ◌<◌, ◌≤◌, ◌↔◌, min, drop, take, length, vec_len, Contains, IfOk, IsOk, IsErr, OnOk, OnErr};
ghost use Rattle.std.specs.Io.{ReadsAtMost};
ghost use Rattle.cd_base.specs.Counts.{HasCause, one_more};
ghost use Rattle.cd_base.specs.Told.{Gave, IsAtEnd};
ghost use Rattle.cd_base.specs.Memories.{SourceView};

use crate::answers::Failed;
use crate::counts::one_more;
use crate::source::Source;
use std::marker::Model;

/// A source over bytes in memory that never fails. Contracts see it as the bytes left.
#[derive(Drop)]
pub struct SteadySource {
    bytes: Vec<u8>,
    at: usize,
}

impl Model for SteadySource {
    ghost use Rattle.std.specs.Prelude.{ℕ, ◌≤◌, List, drop, vec_len};

    ghost Value = { List ℕ };

    ghost view = { λ source. drop source.at source.bytes.items };

    ghost invariant = { λ source. source.at ≤ vec_len source.bytes };
}

impl SteadySource {
    /// A source that has these bytes left.
    pub fn new(bytes: Vec<u8>) -> SteadySource
        ensures { result ≡ bytes.items }
    {
        SteadySource { bytes, at: 0 }
    }

    /// The bytes left.
    pub fn left(&self) -> &[u8]
        ensures { result.now ≡ self.now }
    {
        &self.bytes[self.at..]
    }
}

impl Source for SteadySource {
    ghost use Rattle.std.specs.Prelude.{Some};

    ghost left = { λ source. Some source };

    ghost faults = { λ _. 0 };

    fn read(&mut self, into: &mut [u8]) -> Result<usize, Failed>
        ensures ok { IsOk result }
        ensures count { IfOk result (λ count. count ≡ min (length into.old) (length self.old)) }
        ensures front { IfOk result (λ count. take count into.new ≡ take count self.old) }
        ensures rest { IfOk result (λ count. self.new ≡ drop count self.old) }
        ensures bound { ReadsAtMost result into.new }
    {
        let left = &self.bytes[self.at..];
        let count = into.len().min(left.len());
        into[..count].copy_from_slice(&left[..count]);
        self.at += count;
        Ok(count)
    }
}

/// A source over bytes in memory of which chosen calls fail, as a test wants it.
#[derive(Drop)]
pub struct MemorySource {
    source: SteadySource,
    fails: Vec<u64>,
    calls: u64,
    faults: u64,
}

impl Model for MemorySource {
    ghost use Rattle.cd_base.specs.Memories.{SourceView};

    ghost Value = { SourceView };

    ghost view = { λ s. record {
      left = s.source;
      fails = s.fails.items;
      calls = s.calls;
      faults = s.faults;
    } };
}

impl MemorySource {
    /// A source that has these bytes left. `fails` has the numbers, from 0, of the calls that fail.
    pub fn new(bytes: Vec<u8>, fails: Vec<u64>) -> MemorySource
        ensures { result ≡ record {
          left = bytes.items;
          fails = fails.items;
          calls = 0;
          faults = 0;
        } }
    {
        MemorySource {
            source: SteadySource::new(bytes),
            fails,
            calls: 0,
            faults: 0,
        }
    }

    /// The bytes left.
    pub fn left(&self) -> &[u8]
        ensures { result.now ≡ self.now.left }
    {
        self.source.left()
    }

    /// How many calls failed.
    pub fn faults(&self) -> u64
        ensures { result ≡ self.now.faults }
    {
        self.faults
    }
}

impl Source for MemorySource {
    ghost use Rattle.std.specs.Prelude.{Some};

    ghost left = { λ source. Some source.left };

    ghost faults = { λ source. source.faults };

    fn read(&mut self, into: &mut [u8]) -> Result<usize, Failed>
        ensures fails { IsErr result ↔ Contains self.old.fails self.old.calls }
        ensures count { IfOk result (λ count. count
            ≡ min (length into.old) (length self.old.left)) }
        ensures front { IfOk result (λ count. take count into.new ≡ take count self.old.left) }
        ensures rest { IfOk result (λ count. self.new
            ≡ record self.old {
              left = drop count self.old.left;
              calls = one_more self.old.calls;
            }) }
        ensures failed { OnErr result (self.new
            ≡ record self.old {
              calls = one_more self.old.calls;
              faults = one_more self.old.faults;
            }) }
        ensures bound { ReadsAtMost result into.new }
    {
        let fails = self.fails.contains(&self.calls);
        self.calls = one_more(self.calls);
        if fails {
            self.faults = one_more(self.faults);
            return Err(Failed);
        }
        self.source.read(into)
    }
}
