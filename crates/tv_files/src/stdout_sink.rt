//! Standard output as the sink of lines.
ghost use Rattle.std.specs.Prelude.{◌≡◌, None};

use std::alloc::Global;
use tv_base::{IoFault, IoKind, Sink};

/// Standard output, of which nobody knows what it has taken.
#[derive(Drop)]
pub struct StdoutSink<R: Drop> {
    rt: R,
    alloc: Global,
    faults: u64,
}

impl<R: Drop> StdoutSink<R> {
    /// Standard output, which has refused no call. Takes no memory.
    pub fn new(rt: R, alloc: Global) -> StdoutSink<R>
        ensures quiet { result.faults ≡ 0 }
    {
        StdoutSink {
            rt,
            alloc,
            faults: 0,
        }
    }

    /// How many calls were refused. Takes no memory.
    pub fn faults(&self) -> u64
        ensures count { result ≡ self.now.faults }
    {
        self.faults
    }
}

impl<R: Print + Drop> Sink for StdoutSink<R> {
    ghost taken = { λ _. None };

    ghost faults = { λ s. s.faults };

    fn put(&mut self, bytes: &[u8]) -> Result<(), IoFault> {
        if self.rt.write_all(bytes).is_ok() {
            return Ok(());
        }
        self.faults = self.faults.saturating_add(1);
        Err(IoFault {
            kind: IoKind::Device,
            text: String::new(self.alloc),
        })
    }
}
