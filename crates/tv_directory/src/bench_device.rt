//! The device of a directory in memory, which refuses the calls that it is told to refuse.
ghost use Rattle.std.specs.Prelude.{◌≡◌, []};
ghost use Rattle.tv_device.specs.Calls.{IsSilent};
ghost use Rattle.tv_directory.specs.Device.{TakesNumber, after_fault, after_refusal};

use std::alloc::Global;
use std::marker::Model;
use tv_base::{IoFault, IoKind};

/// Which calls are refused, and how many were.
///
/// The calls have numbers, from 0 on. The number stops at `u64::MAX`, and that call is never
/// refused.
#[derive(Drop)]
pub struct Device {
    alloc: Global,
    fail_at: Vec<u64>,
    call: u64,
    faults: u64,
    refusals: u64,
}

impl Model for Device {
    ghost use Rattle.std.specs.Prelude.{◌≤◌};
    ghost use Rattle.tv_directory.specs.Device.{DeviceState};
    ghost use Rattle.tv_base.specs.Texts.{last};

    ghost Value = { DeviceState };

    ghost view = { λ a. record {
      fail_at = a.fail_at.items;
      call = a.call;
      faults = a.faults;
      refusals = a.refusals;
    } };

    ghost invariant = { λ a. a.refusals ≤ last };
}

impl Device {
    /// A device that refuses no call, before its first one.
    pub fn new(alloc: Global) -> Device
        ensures { result ≡ record { fail_at = []; call = 0; faults = 0; refusals = 0 } }
    {
        Device {
            alloc,
            fail_at: Vec::new(alloc),
            call: 0,
            faults: 0,
            refusals: 0,
        }
    }

    /// From now on refuses exactly the calls with these numbers.
    pub fn fail_at(&mut self, calls: Vec<u64>)
        ensures { self.new ≡ record self.old { fail_at = calls.items } }
    {
        self.fail_at = calls;
    }

    /// How many calls other than deletes were refused.
    pub fn faults(&self) -> u64
        ensures { result ≡ self.now.faults }
    {
        self.faults
    }

    /// How many deletes were refused.
    pub fn refusals(&self) -> u64
        ensures { result ≡ self.now.refusals }
    {
        self.refusals
    }

    /// Takes the number of the next call, and answers whether that one is refused. It isn't counted yet.
    pub fn refuses(&mut self) -> bool
        ensures { TakesNumber self.old self.new result }
    {
        let number = self.call;
        self.call = number.saturating_add(1);
        number < u64::MAX && self.fail_at.contains(&number)
    }

    /// Counts a refused call that isn't a delete, and gives its fault. Takes no memory.
    pub fn fault(&mut self) -> IoFault
        ensures counted { self.new ≡ after_fault self.old }
        ensures fault { IsSilent result }
    {
        self.faults = self.faults.saturating_add(1);
        self.silent()
    }

    /// Counts a refused delete, and gives its fault. Takes no memory.
    pub fn refusal(&mut self) -> IoFault
        ensures counted { self.new ≡ after_refusal self.old }
        ensures fault { IsSilent result }
    {
        self.refusals = self.refusals.saturating_add(1);
        self.silent()
    }

    // A fault without a text.
    fn silent(&self) -> IoFault
        ensures { IsSilent result }
    {
        IoFault {
            kind: IoKind::Device,
            text: String::new(self.alloc),
        }
    }
}
