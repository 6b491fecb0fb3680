//! Results that come later: by which way they come, and who looks at them.
ghost use Rattle.std.specs.Prelude.{◌≡◌, false};

use futures::executor::block_on;
use futures::future::Future;
use futures::task::{Context, Poll};
use std::alloc::{AllocGlobal, Global};
use std::process::Abort;
use std::random::RandomSource;
use std::sync::Wait;
use std::thread;
use std::thread::Threads;
use tv_base::{FutureResult, Memory, Sender, TantivyError};
use tv_test_support::told;

// What becomes of a sender.
#[derive(Clone, Copy)]
enum Way {
    Sends(u64),
    SendsError,
    Goes,
}

// Whether this answer reaches the future of its sender.
fn is_sent(sender: Sender<u64>, answer: Result<u64, TantivyError>) -> bool {
    is_ok(sender.send(answer))
}

fn is_ok<T: Drop, E: Drop>(answer: Result<T, E>) -> bool {
    answer.is_ok()
}

// Whether a sender reaches its future. One that goes always does.
fn reaches(sender: Sender<u64>, way: Way) -> bool {
    match way {
        Way::Sends(number) => is_sent(sender, Ok(number)),
        Way::SendsError => is_sent(sender, Err(TantivyError::Poisoned)),
        Way::Goes => true,
    }
}

// A future, and its sender, which goes its way once the future was looked at without an answer.
#[derive(Drop)]
struct Look {
    future: FutureResult<u64>,
    sender: Option<Sender<u64>>,
    way: Way,
    // How often it was looked at before.
    looks: u8,
}

impl Future for Look {
    type Output = (u8, Result<u64, TantivyError>);

    ghost use Rattle.std.specs.Prelude.{◌≡◌, false};

    ghost can_poll = { λ l. l.future.answered ≡ false };

    fn poll(&mut self, cx: &mut Context<'_>) -> Poll<(u8, Result<u64, TantivyError>)> {
        match self.future.poll(cx) {
            Poll::Ready(answer) => Poll::Ready((self.looks, answer)),
            Poll::Pending => {
                self.looks = self.looks.saturating_add(1);
                self.sender.take().map(|sender| reaches(sender, self.way));
                Poll::Pending
            }
        }
    }
}

// The sender, if it is to go its way later.
fn kept(sender: Sender<u64>, way: Way, is_later: bool) -> Option<Sender<u64>> {
    if is_later {
        return Some(sender);
    }
    reaches(sender, way);
    None
}

// How often a future was looked at without an answer, and the answer.
fn polled<R: Wait + RandomSource + AllocGlobal>(
    rt: &R,
    way: Way,
    is_later: bool,
) -> Result<Option<(u8, Result<u64, TantivyError>)>, Memory> {
    let (future, sender) = FutureResult::create(rt.alloc(), "failed")?;
    let look = Look {
        future,
        sender: kept(sender, way, is_later),
        way,
        looks: 0,
    };
    Ok(block_on(rt, look).ok())
}

// A way, whether it is gone once the future was looked at, and what comes of that.
const POLLED: &[(Way, bool, &str)] = &[
    (Way::Sends(2), false, "Ok(Some((0, Ok(2))))"),
    (Way::SendsError, false, "Ok(Some((0, Err(Poisoned))))"),
    (
        Way::Goes,
        false,
        r#"Ok(Some((0, Err(SystemError("failed")))))"#,
    ),
    (Way::Sends(2), true, "Ok(Some((1, Ok(2))))"),
    (
        Way::Goes,
        true,
        r#"Ok(Some((1, Err(SystemError("failed")))))"#,
    ),
];

#[test]
fn answers_are_polled(rt: HostRuntime) {
    for (way, is_later, want) in POLLED {
        assert!(rt; told(&rt, rt.alloc(), polled(&rt, *way, *is_later), want));
    }
}

// Whether another thread's sender reaches the future, and the answer that is waited for.
fn waited<R: Threads + Wait + AllocGlobal>(
    rt: &R,
    way: Way,
) -> Result<(bool, Result<u64, TantivyError>), Memory> {
    let (future, sender) = FutureResult::create(rt.alloc(), "failed")?;
    Ok(thread::join(rt, move || reaches(sender, way), move || future.wait(rt)))
}

const WAITED: &[(Way, &str)] = &[
    (Way::Sends(2), "Ok((true, Ok(2)))"),
    (Way::SendsError, "Ok((true, Err(Poisoned)))"),
    (Way::Goes, r#"Ok((true, Err(SystemError("failed"))))"#),
];

#[test]
fn answers_are_waited_for(rt: HostRuntime) {
    for (way, want) in WAITED {
        assert!(rt; told(&rt, rt.alloc(), waited(&rt, *way), want));
    }
}

// Whether a sender reaches a future that is gone.
fn reaches_nobody(alloc: Global) -> Result<bool, Memory> {
    let (future, sender) = FutureResult::create(alloc, "failed")?;
    drop(future);
    Ok(reaches(sender, Way::Sends(2)))
}

#[test]
fn one_that_nobody_waits_for(rt: HostRuntime) {
    assert!(rt; told(&rt, rt.alloc(), reaches_nobody(rt.alloc()), "Ok(false)"));
    let future: FutureResult<u64> = FutureResult::from(TantivyError::Poisoned);
    assert!(rt; told(&rt, rt.alloc(), future.wait(&rt), "Err(Poisoned)"));
}
