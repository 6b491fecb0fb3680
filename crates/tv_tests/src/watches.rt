//! Callbacks: that they are called, in which order, and until when.

ghost use Rattle.std.specs.Prelude.{◌≡◌, true};
ghost use Rattle.tv_formats.specs.Names.{is_file_name};

use crate::compare::is_number;
use std::alloc::Global;
use std::mem;
use std::process::Abort;
use std::sync::Arc;
use std::sync::atomic::{AtomicU64, Ordering};
use tv_directory::{
    Directory, RamDirectory, WatchCall, WatchCallback, WatchCallbackList, WatchHandle,
};

// Multiplies a number at each call, and adds to it.
#[derive(Drop)]
struct Counts {
    number: Arc<AtomicU64>,
    times: u64,
    plus: u64,
    calls: u64,
}

impl WatchCall for Counts {
    ghost calls = { λ c. c.calls };

    fn call(&mut self) {
        let number = self.number.load(Ordering::SeqCst);
        let next = number.saturating_mul(self.times).saturating_add(self.plus);
        self.number.store(next, Ordering::SeqCst);
        self.calls = self.calls.saturating_add(1);
    }
}

// A callback of the number, in a box.
pub(crate) fn boxed<R: Abort>(
    rt: &R,
    alloc: Global,
    number: &Arc<AtomicU64>,
    times: u64,
    plus: u64,
) -> WatchCallback {
    let counts = Counts {
        number: Arc::try_clone(number).expect(rt, "few clones"),
        times,
        plus,
        calls: 0,
    };
    WatchCallback::new(Box::new(alloc, counts).expect(rt, "memory"))
}

// A call on a list of callbacks. The handles are counted from 0 on in the order in which they came.
#[derive(Clone, Copy)]
enum Step {
    Subscribe { times: u64, plus: u64 },
    Share(usize),
    // Released once more, a handle names nobody.
    Release(usize),
    // Gives back the handle of a number that nobody has.
    ReleaseUnknown,
    Broadcast,
    // What the number is by now.
    Is(u64),
}

// A list of callbacks, its handles, and the number that the callbacks change.
#[derive(Drop)]
struct Watched {
    alloc: Global,
    number: Arc<AtomicU64>,
    list: WatchCallbackList,
    handles: Vec<WatchHandle>,
}

impl Watched {
    fn subscribe<R: Abort>(&mut self, rt: &R, times: u64, plus: u64) {
        let callback = boxed(rt, self.alloc, &self.number, times, plus);
        let handle = self.list.subscribe(callback).expect(rt, "memory");
        self.handles.push(handle).expect(rt, "memory");
    }

    fn share<R: Abort>(&mut self, rt: &R, number: usize) {
        let Some(handle) = self.handles.get(number) else {
            panic!(rt; "no handle has this number")
        };
        let other = self.list.share(handle).expect(rt, "few handles");
        self.handles.push(other).expect(rt, "memory");
    }

    fn release<R: Abort>(&mut self, rt: &R, number: usize) {
        let Some(handle) = self.handles.get_mut(number) else {
            panic!(rt; "no handle has this number")
        };
        self.list
            .release(mem::replace(handle, WatchHandle::empty()));
    }

    // Takes a step, and answers whether the number is what it is to be.
    fn take<R: Abort>(&mut self, rt: &R, step: Step) -> bool {
        match step {
            Step::Subscribe { times, plus } => self.subscribe(rt, times, plus),
            Step::Share(number) => self.share(rt, number),
            Step::Release(number) => self.release(rt, number),
            Step::ReleaseUnknown => self.list.release(WatchHandle::new(7)),
            Step::Broadcast => drop(self.list.broadcast()),
            Step::Is(number) => return self.number.load(Ordering::SeqCst) == number,
        }
        true
    }

    fn take_all<R: Abort>(&mut self, rt: &R, steps: &[Step]) {
        for (number, step) in steps.iter().enumerate() {
            assert!(rt; self.take(rt, *step), "step {number} ends otherwise");
        }
    }
}

fn take_all<R: Abort>(rt: &R, alloc: Global, steps: &[Step]) {
    let number = Arc::new(alloc, AtomicU64::new(0)).expect(rt, "memory");
    let mut watched = Watched {
        alloc,
        number,
        list: WatchCallbackList::new(alloc),
        handles: Vec::new(alloc),
    };
    watched.take_all(rt, steps);
}

const SUMS: &[Step] = &[
    Step::Subscribe { times: 1, plus: 1 },
    Step::Subscribe { times: 1, plus: 10 },
    Step::Broadcast,
    Step::Broadcast,
    Step::Is(22),
    Step::Release(0),
    Step::Broadcast,
    Step::Is(32),
    Step::Release(1),
    Step::Broadcast,
    Step::Broadcast,
    Step::Is(32),
];

// Each writes its digit behind the others.
const DIGITS: &[Step] = &[
    Step::Subscribe { times: 10, plus: 2 },
    Step::Subscribe { times: 10, plus: 1 },
    Step::Subscribe { times: 10, plus: 3 },
    Step::Broadcast,
    Step::Release(1),
    Step::Subscribe { times: 10, plus: 4 },
    Step::Broadcast,
    Step::Is(213_234),
];

const SHARED: &[Step] = &[
    Step::Subscribe { times: 1, plus: 1 },
    Step::Share(0),
    Step::Release(0),
    Step::Broadcast,
    Step::Is(1),
    // By now this handle names nobody.
    Step::Share(0),
    Step::Release(2),
    Step::ReleaseUnknown,
    Step::Broadcast,
    Step::Is(2),
    Step::Release(1),
    Step::Broadcast,
    Step::Release(1),
    Step::Is(2),
];

#[test]
fn callbacks_are_called_in_their_order_as_long_as_a_handle_is_out(rt: HostRuntime) {
    for steps in [SUMS, DIGITS, SHARED] {
        take_all(&rt, rt.alloc(), steps);
    }
}

// Whether there is a notice to deliver, and one alone.
fn delivers_once<D: Directory>(directory: &mut D) -> bool {
    let is_first = directory.deliver();
    let is_second = directory.deliver();
    is_first && !is_second
}

// Whether a write of this name is noticed, and delivered once.
fn is_noticed<R: Abort, D: Directory>(rt: &R, directory: &mut D, name: &str) -> bool
    requires { is_file_name name.now ≡ true }
{
    directory.atomic_write(name, b"{}").expect(rt, "written");
    delivers_once(directory)
}

// Both callbacks are noticed of a new commit, and then the second one alone.
pub(crate) fn watch_both<R: Abort, D: Directory>(
    rt: &R,
    directory: &mut D,
    one: D::Callback,
    other: D::Callback,
) {
    let first = directory.watch(one).expect(rt, "memory");
    directory.watch(other).expect(rt, "memory");
    assert!(rt; is_noticed(rt, directory, "meta.json"));
    directory.unwatch(first);
    assert!(rt; !is_noticed(rt, directory, "other.json"));
    assert!(rt; is_noticed(rt, directory, "meta.json"));
}

// The digits of those who were called, each of whom writes its own behind the others.
fn digits_of_ram<R: Abort>(rt: &R, alloc: Global) -> u64 {
    let number = Arc::new(alloc, AtomicU64::new(0)).expect(rt, "memory");
    let one = boxed(rt, alloc, &number, 10, 2);
    let other = boxed(rt, alloc, &number, 10, 1);
    watch_both(rt, &mut RamDirectory::create(alloc), one, other);
    number.load(Ordering::SeqCst)
}

#[test]
fn a_notice_reaches_the_first_registered_first(rt: HostRuntime) {
    is_number(&rt, digits_of_ram(&rt, rt.alloc()), 211);
}
