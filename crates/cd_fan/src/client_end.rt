ghost use Rattle.std.specs.Prelude.{◌≡◌};
ghost use Rattle.cd_fan.specs.Ends.{is_done};

/// How a client ended.
#[derive(Clone, Copy, Debug, PartialEq, Eq)]
pub enum ClientEnd {
    /// It got the whole text, of so many bytes.
    Done { bytes: u64 },
    /// It failed, and is gone. So many bytes stood in the pieces that it answered well.
    Failed { bytes: u64 },
}

impl ClientEnd {
    /// It got the whole text.
    pub fn is_done(&self) -> bool
        ensures { result ≡ is_done self.now }
    {
        matches!(self, ClientEnd::Done { .. })
    }
}
