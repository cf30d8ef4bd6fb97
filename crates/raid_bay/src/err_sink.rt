//! Standard error.
ghost use Rattle.std.specs.Prelude.{◌≡◌};

use crate::sink::Sink;
use blk_disk::Failed;
use std::io::Write;

/// Standard error. It tells nothing.
#[derive(Drop)]
pub struct ErrSink {
    rt: HostRuntime,
    faults: u64,
}

impl ErrSink {
    /// The process's standard error.
    pub fn new(rt: HostRuntime) -> ErrSink
        ensures { result.faults ≡ 0 }
    {
        ErrSink { rt, faults: 0 }
    }
}

impl Sink for ErrSink {
    ghost use Rattle.std.specs.Prelude.{[]};

    ghost tells = { ⊥ };

    ghost output = { λ s. [] };

    ghost faults = { λ s. s.faults };

    fn put(&mut self, bytes: &[u8]) -> Result<(), Failed> {
        match self.rt.stderr().write_all(bytes) {
            Ok(()) => Ok(()),
            Err(_) => {
                self.faults = self.faults.saturating_add(1);
                Err(Failed)
            }
        }
    }
}
