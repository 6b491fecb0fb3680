//! Where lines of output go.
ghost use Rattle.std.specs.Prelude.{◌≡◌, ◌+◌, ◌<◌, ◌++◌, ◌↔◌, [], List, ℕ, Option, Some, length, IfOk, IfErr, OnOk, OnErr, IsErr};
ghost use Rattle.tv_base.specs.Streams.{Takes, TakesPart};
ghost use Rattle.tv_base.specs.Causes.{IsDevice};
ghost use Rattle.tv_base.specs.Texts.{counted};
ghost use Rattle.tv_formats.specs.Files.{Rose};

use crate::io::{IoFault, IoKind};
use std::alloc::Global;
use std::marker::Model;
use tv_formats::Memory;

/// What takes bytes.
pub trait Sink {
    /// The bytes that were taken, where the sink tells them.
    ghost taken: { Self → Option (List ℕ) };

    /// How many calls were refused.
    ghost faults: { Self → ℕ };

    /// Takes all of these bytes. A refused call has taken none of them or a first part. Takes no memory.
    fn put(&mut self, bytes: &[u8]) -> Result<(), IoFault>
        ensures ok { OnOk result (Takes bytes.now (taken self.old) (taken self.new)) }
        ensures part { OnErr result (TakesPart bytes.now (taken self.old) (taken self.new)) }
        ensures quiet { OnOk result (faults self.new ≡ faults self.old) }
        ensures cause { IfErr result
            (λ fault. IsDevice fault × Rose (faults self.old) (faults self.new)) };
}

/// A sink in memory, which has room for so many bytes.
#[derive(Drop)]
pub struct VecSink {
    // Has the capacity for `room` bytes.
    taken: Vec<u8>,
    room: usize,
    faults: u64,
}

impl Model for VecSink {
    ghost use Rattle.std.specs.Prelude.{◌≤◌, vec_len, vec_capacity};
    ghost use Rattle.tv_base.specs.Streams.{SinkState};

    ghost Value = { SinkState };

    ghost view = { λ s. record { taken = s.taken.items; room = s.room; faults = s.faults } };

    ghost invariant = { λ s. record {
      within : vec_len s.taken ≤ s.room;
      capacity : s.room ≤ vec_capacity s.taken;
    } };
}

impl VecSink {
    /// A sink that has taken nothing. It refuses exactly the puts with which it would have taken more
    /// than `room` bytes. All memory for them is taken here.
    pub fn new(alloc: Global, room: usize) -> Result<VecSink, Memory>
        ensures taken { IfOk result (λ sink. sink.taken ≡ []) }
        ensures room { IfOk result (λ sink. sink.room ≡ room) }
        ensures faults { IfOk result (λ sink. sink.faults ≡ 0) }
    {
        let taken = Vec::with_capacity(alloc, room)?;
        Ok(VecSink {
            taken,
            room,
            faults: 0,
        })
    }

    /// The bytes that were taken. Takes no memory.
    pub fn as_slice(&self) -> &[u8]
        ensures bytes { result.now ≡ self.now.taken }
    {
        self.taken.as_slice()
    }

    /// How many calls were refused. Takes no memory.
    pub fn faults(&self) -> u64
        ensures count { result ≡ self.now.faults }
    {
        self.faults
    }
}

impl Sink for VecSink {
    ghost taken = { λ s. Some s.taken };

    ghost faults = { λ s. s.faults };

    fn put(&mut self, bytes: &[u8]) -> Result<(), IoFault>
        ensures ok { OnOk result (Takes bytes.now (Some self.old.taken) (Some self.new.taken)) }
        ensures part { OnErr result
            (TakesPart bytes.now (Some self.old.taken) (Some self.new.taken)) }
        ensures quiet { OnOk result (self.new.faults ≡ self.old.faults) }
        ensures cause { IfErr result
            (λ fault. IsDevice fault × Rose self.old.faults self.new.faults) }
        ensures refused { IsErr result ↔
            (self.old.room < length self.old.taken + length bytes.now) }
        ensures took { OnOk result
            (self.new ≡ record self.old { taken = self.old.taken ++ bytes.now }) }
        ensures failed { OnErr result
            (self.new ≡ record self.old { faults = counted self.old.faults }) }
    {
        if self.room - self.taken.len() < bytes.len() {
            self.faults = self.faults.saturating_add(1);
            return Err(IoFault {
                kind: IoKind::Device,
                text: String::new(*self.taken.allocator()),
            });
        }
        self.taken.extend_from_slice(bytes).unwrap();
        Ok(())
    }
}
