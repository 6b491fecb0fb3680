//! Those who wait for a new commit.
ghost use Rattle.std.specs.Prelude.{◌≡◌, ℕ, Some, None};
ghost use Rattle.tv_device.specs.Watch.{called};

use std::marker::Model;

/// Who is called when there is a new commit.
pub trait WatchCall: Drop {
    /// How often it was called, as far as 64 bits count.
    ghost calls: { Self → ℕ };

    /// Tells it that there is a new commit.
    fn call(&mut self)
        ensures { calls self.new ≡ called (calls self.old) };
}

/// Nobody who waits: for directories that nobody watches.
#[derive(Clone, Copy, Debug)]
pub struct NoWatch;

impl WatchCall for NoWatch {
    ghost calls = { λ _. 18446744073709551615 };

    fn call(&mut self) {}
}

/// A box that is called when there is a new commit.
#[derive(Drop)]
pub struct WatchCallback {
    call: Box<dyn WatchCall + Send + Drop>,
}

impl WatchCallback {
    /// The callback that calls this box.
    pub fn new(call: Box<dyn WatchCall + Send + Drop>) -> WatchCallback
        ensures call { result.call ≡ call }
    {
        WatchCallback { call }
    }
}

impl WatchCall for WatchCallback {
    ghost calls = { λ a. (WatchCall-box a.call).calls a.call.value };

    fn call(&mut self) {
        self.call.call();
    }
}

/// A handle of a registration, or an empty one. To a contract it is the number of the registration,
/// where it has one.
#[derive(Debug, Drop, PartialEq, Eq)]
pub struct WatchHandle {
    number: Option<u64>,
}

impl Model for WatchHandle {
    ghost use Rattle.std.specs.Prelude.{ℕ, Option};

    ghost Value = { Option ℕ };

    ghost view = { λ h. h.number };

    ghost inverse = { λ number. record { number = number } };
}

impl WatchHandle {
    /// The handle of this number. It isn't counted by any list.
    pub fn new(number: u64) -> WatchHandle
        ensures number { result ≡ Some number }
    {
        WatchHandle {
            number: Some(number),
        }
    }

    /// A handle that names nobody.
    pub fn empty() -> WatchHandle
        ensures empty { result ≡ None }
    {
        WatchHandle { number: None }
    }

    /// The number that it names.
    pub(crate) fn number(&self) -> Option<u64>
        ensures number { result ≡ self.now }
    {
        self.number
    }
}
