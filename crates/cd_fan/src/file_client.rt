ghost use Rattle.std.specs.Prelude.{◌≡◌, IfOk};

use crate::client::SliceClient;
use cd_base::{Failed, one_more};
use std::fs::{self, Files};
use std::io::{ErrorKind, Write};
use thiserror::Error;

/// Why no file is made.
#[derive(Clone, Copy, Debug, PartialEq, Eq, Error)]
pub enum FileFault {
    /// The file can't be made.
    #[error("the file can't be made")]
    Failed,
    /// Memory ran out.
    #[error("out of memory")]
    Memory,
}

/// A client that writes a file. It tells nothing of what it got.
#[derive(Drop)]
pub struct FileClient<F> {
    file: F,
    faults: u64,
}

impl<F> FileClient<F> {
    /// Makes the file, or empties it where it is there.
    pub fn create<R: Files<File = F>>(files: &R, path: &str) -> Result<FileClient<F>, FileFault>
        ensures { IfOk result (λ client. client.faults ≡ 0) }
    {
        match fs::create(files, path) {
            Ok(file) => Ok(FileClient { file, faults: 0 }),
            Err(error) if error.kind() == ErrorKind::OutOfMemory => Err(FileFault::Memory),
            Err(_) => Err(FileFault::Failed),
        }
    }
}

impl<F: Write + Drop> SliceClient for FileClient<F> {
    ghost use Rattle.std.specs.Prelude.{None, false};

    ghost got = { λ _. None };

    ghost faults = { λ c. c.faults };

    ghost steady = { λ _. false };

    fn take(&mut self, _offset: u64, piece: &[u8]) -> Result<(), Failed> {
        match self.file.write_all(piece) {
            Ok(()) => Ok(()),
            Err(_) => {
                self.faults = one_more(self.faults);
                Err(Failed)
            }
        }
    }

    fn ended(&mut self) -> Result<(), Failed> {
        match self.file.flush() {
            Ok(()) => Ok(()),
            Err(_) => {
                self.faults = one_more(self.faults);
                Err(Failed)
            }
        }
    }
}
