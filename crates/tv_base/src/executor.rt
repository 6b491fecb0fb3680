//! Who runs work that falls into independent parts: the caller alone, or several threads.
ghost use Rattle.std.specs.Prelude.{◌≡◌, ◌<◌, ◌⊎◌, IfErr, IfOk, max};
ghost use Rattle.std.specs.Iterator.{IsFinite};
ghost use Rattle.std.specs.Iterator.Runs.{WholeRun};
ghost use Rattle.std.specs.List.{flat_map};
ghost use Rattle.tv_base.specs.Maps.{Answers, IsFirstError};

use crate::error::TantivyError;
use std::alloc::Global;
use std::thread::Threads;
use std::{mem, thread};
use tv_formats::Memory;

/// Who runs work on a list.
#[derive(Clone, Copy, Debug, PartialEq, Eq, Drop)]
pub enum Executor {
    /// The caller.
    SingleThread,
    /// At most this many threads, of which the caller is one. 0 is read as 1.
    ThreadPool(usize),
}

impl Executor {
    /// The caller runs all. Takes no memory.
    pub fn single_thread() -> Executor
        ensures { result ≡ Executor.SingleThread }
    {
        Executor::SingleThread
    }

    /// At most this many threads, where 0 is read as 1. They are started by each call of `map` and
    /// joined before it returns; the prefix is unused. Takes no memory.
    pub fn multi_thread(num_threads: usize, _prefix: &'static str) -> Executor
        ensures { result ≡ Executor.ThreadPool (max 1 num_threads) }
    {
        Executor::ThreadPool(num_threads.max(1))
    }

    /// The answers of `f` at the arguments, in their order, or the error of least position. The
    /// arguments are drawn before `f` is called. Every error but `Memory` is an answer of `f`.
    pub fn map<
        R: Threads + Sync,
        A: Send + Drop,
        T: Send + Drop,
        I: Iterator<Item = A>,
        F: Fn(A) -> Result<T, TantivyError> + Sync,
    >(&self, rt: &R, alloc: Global, f: F, args: I) -> Result<Vec<T>, TantivyError>
        requires ready { I.can_next args }
        requires finite { IsFinite (I.remaining args) }
        requires callable { F.IsAlwaysCallable f }
        ensures answers { IfOk result (λ values. WholeRun I.next_gives args
            (λ run. Answers (F.post f) run.items values.items)) }
        ensures error { IfErr result (λ error. (error ≡ TantivyError.Memory)
            ⊎ WholeRun I.next_gives args (λ run. IsFirstError (F.post f) run.items error)) }
    {
        let args: Vec<A> = args.collect(alloc)?;
        match *self {
            Executor::SingleThread => in_turn(alloc, &f, args),
            Executor::ThreadPool(threads) => in_parts(rt, alloc, &f, args, threads.max(1)),
        }
    }
}

// The answers of `f` at the arguments, one after the other, up to the first error.
fn in_turn<A: Drop, T: Drop, F: Fn(A) -> Result<T, TantivyError>>(
    alloc: Global,
    f: &F,
    args: Vec<A>,
) -> Result<Vec<T>, TantivyError>
    requires callable { F.IsAlwaysCallable f.now }
    ensures answers { IfOk result (λ values. Answers (F.post f.now) args.items values.items) }
    ensures error { IfErr result (λ error. (error ≡ TantivyError.Memory)
        ⊎ IsFirstError (F.post f.now) args.items error) }
{
    let mut values = Vec::new(alloc);
    for arg in args {
        values.push(f(arg)?)?;
    }
    Ok(values)
}

// The arguments in order, in parts of one length but for the last: at most `count` of them.
fn cut<A: Drop>(alloc: Global, args: Vec<A>, count: usize) -> Result<Vec<Vec<A>>, Memory>
    requires some { 0 < count }
    ensures all { IfOk result (λ parts. flat_map (λ part. part.items) parts.items ≡ args.items) }
{
    let len = args.len().div_ceil(count);
    let mut parts = Vec::new(alloc);
    let mut part = Vec::new(alloc);
    for arg in args {
        if part.len() == len {
            parts.push(mem::replace(&mut part, Vec::new(alloc)))?;
        }
        part.push(arg)?;
    }
    parts.push(part)?;
    Ok(parts)
}

// The answers of `f` at the arguments, by at most `threads` threads. Each has a part of them and
// stops at the first error there.
fn in_parts<
    R: Threads + Sync,
    A: Send + Drop,
    T: Send + Drop,
    F: Fn(A) -> Result<T, TantivyError> + Sync,
>(rt: &R, alloc: Global, f: &F, args: Vec<A>, threads: usize) -> Result<Vec<T>, TantivyError>
    requires some { 0 < threads }
    requires callable { F.IsAlwaysCallable f.now }
    ensures answers { IfOk result (λ values. Answers (F.post f.now) args.items values.items) }
    ensures error { IfErr result (λ error. (error ≡ TantivyError.Memory)
        ⊎ IsFirstError (F.post f.now) args.items error) }
{
    let parts = cut(alloc, args, threads)?;
    let answers = thread::map_vec(rt, parts, &|part| in_turn(alloc, f, part))?;
    match in_turn(
        alloc,
        &|answer: Result<Vec<T>, TantivyError>| answer,
        answers,
    ) {
        Ok(values) => Ok(flattened(alloc, values)?),
        Err(error) => Err(error),
    }
}

// The elements of the parts, in order.
fn flattened<T: Drop>(alloc: Global, parts: Vec<Vec<T>>) -> Result<Vec<T>, Memory>
    ensures all { IfOk result (λ all. all.items ≡ flat_map (λ part. part.items) parts.items) }
{
    Ok(parts.into_iter().flatten().collect(alloc)?)
}
