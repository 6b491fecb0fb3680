//! A result that may come later.
ghost use Rattle.std.specs.Prelude.{◌≡◌, Some, None, Ok, false, IfOk, IfErr, IfSome};
ghost use Rattle.tv_base.specs.FutureStates.{finished_in, is_answered};
ghost use Rattle.futures.specs.Poll.{OnPending};
ghost use Rattle.futures.specs.Task.{IsArmed, Keeps};

use crate::error::TantivyError;
use crossbeam_utils::Backoff;
use futures::channel::oneshot;
use futures::future::Future;
use futures::task::{Context, Poll};
use std::alloc::Global;
use std::marker::Model;
use std::mem;
use std::sync::Wait;
use tv_formats::Memory;

type Answer<T> = Result<T, TantivyError>;

/// A result that is there from the start, or is sent later.
#[derive(Drop)]
pub struct FutureResult<T: Drop> {
    state: State<Answer<T>>,
}

#[derive(Drop)]
enum State<A: Drop> {
    Finished(A),
    // With the text of the error that is answered where the sender is gone.
    InProgress(oneshot::Receiver<A>, String),
    Answered,
}

impl<T: Drop> Model for FutureResult<T> {
    ghost use Rattle.tv_base.specs.Futures.{Promise};

    ghost Value = { Promise T };

    ghost use Rattle.tv_base.specs.FutureStates.{promise_of};

    ghost view = { λ f. promise_of f.state };
}

/// The end that sends the result.
#[derive(Drop)]
pub struct Sender<T: Drop>(oneshot::Sender<Answer<T>>);

impl<T: Drop> Sender<T> {
    /// Sends the result, or gives it back where the future is gone. Takes no memory.
    pub fn send(self, answer: Result<T, TantivyError>) -> Result<(), Result<T, TantivyError>>
        ensures back { IfErr result (λ back. back ≡ answer) }
    {
        self.0.send(answer)
    }
}

impl<T: Drop> FutureResult<T> {
    /// A result that is sent later. Where its sender is dropped before, it is the error `SystemError`
    /// with this message.
    pub fn create(alloc: Global, msg: &'static str) -> Result<(FutureResult<T>, Sender<T>), Memory>
        ensures waiting { IfOk result
            (λ ends. ends.0 ≡ record { finished = None; answered = false }) }
    {
        let message = String::from_str(alloc, msg)?;
        let (sender, receiver) = oneshot::channel(alloc)?;
        let state = State::InProgress(receiver, message);
        Ok((FutureResult { state }, Sender(sender)))
    }

    /// A result that is there. Takes no memory.
    pub fn done(answer: Result<T, TantivyError>) -> FutureResult<T>
        ensures finished { result ≡ record { finished = Some answer; answered = false } }
    {
        FutureResult {
            state: State::Finished(answer),
        }
    }

    /// The result, as soon as it is there. May wait. Takes no memory.
    pub fn wait<R: Wait>(self, rt: &R) -> Result<T, TantivyError>
        requires unanswered { self.answered ≡ false }
        ensures answer { IfSome self.finished (λ answer. result ≡ answer) }
    {
        match self.state {
            State::Finished(answer) => answer,
            State::InProgress(receiver, message) => received(rt, receiver, message),
            State::Answered => unreachable!(),
        }
    }

    /// The result, if it is there. Otherwise the task of `cx` is woken once it is. Takes no memory.
    pub fn poll(&mut self, cx: &mut Context<'_>) -> Poll<Result<T, TantivyError>>
        requires unanswered { self.old.answered ≡ false }
        ensures answer { IfSome self.old.finished (λ answer. result ≡ Poll.Ready answer) }
        ensures registered { OnPending result (IsArmed cx.new) }
        ensures again { OnPending result (self.new ≡ self.old) }
        ensures kept { Keeps cx.old cx.new }
    {
        match self.state.poll(cx) {
            Poll::Ready(Ok(answer)) => Poll::Ready(answer),
            Poll::Ready(Err(message)) => Poll::Ready(Err(TantivyError::SystemError(message))),
            Poll::Pending => Poll::Pending,
        }
    }
}

impl<A: Drop> State<A> {
    // The answer, if it is there, or the text where the sender is gone.
    fn poll(&mut self, cx: &mut Context<'_>) -> Poll<Result<A, String>>
        requires unanswered { is_answered self.old ≡ false }
        ensures answer { IfSome (finished_in self.old) (λ answer. result ≡ Poll.Ready (Ok answer)) }
        ensures registered { OnPending result (IsArmed cx.new) }
        ensures finished { OnPending result (finished_in self.new ≡ finished_in self.old) }
        ensures again { OnPending result (is_answered self.new ≡ is_answered self.old) }
        ensures kept { Keeps cx.old cx.new }
    {
        match mem::replace(self, State::Answered) {
            State::Finished(answer) => Poll::Ready(Ok(answer)),
            State::InProgress(mut receiver, message) => match receiver.poll(cx) {
                Poll::Ready(Ok(answer)) => Poll::Ready(Ok(answer)),
                Poll::Ready(Err(_)) => Poll::Ready(Err(message)),
                Poll::Pending => {
                    *self = State::InProgress(receiver, message);
                    Poll::Pending
                }
            },
            State::Answered => unreachable!(),
        }
    }
}

impl<T: Drop> From<TantivyError> for FutureResult<T> {
    ghost use Rattle.std.specs.Prelude.{◌≡◌, Some, Err, false};

    ghost from_gives = { λ error f. f ≡ record { finished = Some (Err error); answered = false } };

    fn from(error: TantivyError) -> FutureResult<T> {
        FutureResult::done(Err(error))
    }
}

// What is sent, or the error of this text where the sender is gone.
fn received<T: Drop, R: Wait>(
    rt: &R,
    mut receiver: oneshot::Receiver<Answer<T>>,
    message: String,
) -> Answer<T> {
    let backoff = Backoff::new();
    for _ in rt.forever() {
        match receiver.try_recv() {
            Ok(Some(answer)) => return answer,
            Ok(None) => backoff.snooze(),
            Err(_) => return Err(TantivyError::SystemError(message)),
        }
    }
    unreachable!()
}
