//! Work on lists by one thread and by several.
use std::alloc::Global;
use std::process::Abort;
use std::sync::atomic::{AtomicU64, Ordering};
use std::thread::Threads;
use tv_base::{Executor, TantivyError};
use tv_test_support::told;

// Twice each number below this one.
fn doubled<R: Threads + Sync>(
    rt: &R,
    alloc: Global,
    executor: Executor,
    count: u64,
) -> Result<Vec<u64>, TantivyError> {
    executor.map(rt, alloc, |number| Ok(number.wrapping_mul(2)), 0..count)
}

// How many threads there are, how many numbers, and what comes of them.
const DOUBLED: &[(usize, u64, &str)] = &[
    (3, 10, "Ok([0, 2, 4, 6, 8, 10, 12, 14, 16, 18])"),
    (0, 3, "Ok([0, 2, 4])"),
    (64, 3, "Ok([0, 2, 4])"),
    (2, 0, "Ok([])"),
];

#[test]
fn answers_come_in_the_order_of_the_arguments(rt: HostRuntime) {
    for (threads, count, want) in DOUBLED {
        let executor = Executor::multi_thread(*threads, "search-test");
        assert!(rt;
            told(
                &rt,
                rt.alloc(),
                doubled(&rt, rt.alloc(), executor, *count),
                want
            )
        );
    }
}

// Looks whether these are the even numbers from 0 on.
fn are_even_numbers<R: Abort>(rt: &R, values: &[u64]) {
    let mut want = 0u64;
    for value in values {
        assert_eq!(rt; *value, want);
        want = want.wrapping_add(2);
    }
}

#[test]
fn one_thread_answers_a_thousand(rt: HostRuntime) {
    let values = doubled(&rt, rt.alloc(), Executor::single_thread(), 1000).expect(&rt, "memory");
    assert_eq!(rt; values.len(), 1000);
    are_even_numbers(&rt, values.as_slice());
}

// A call that fails at 4 and, with another error, at 7.
fn fails_twice(number: u64) -> Result<u64, TantivyError> {
    match number {
        4 => Err(TantivyError::Exhausted),
        7 => Err(TantivyError::Poisoned),
        _ => Ok(number),
    }
}

#[test]
fn the_error_of_least_position_is_answered(rt: HostRuntime) {
    let alone = Executor::single_thread().map(&rt, rt.alloc(), fails_twice, 0..10);
    assert!(rt; told(&rt, rt.alloc(), alone, "Err(Exhausted)"));
    for threads in 1..12 {
        let executor = Executor::multi_thread(threads, "search-test");
        let answer = executor.map(&rt, rt.alloc(), fails_twice, 0..10);
        assert!(rt; told(&rt, rt.alloc(), answer, "Err(Exhausted)"));
    }
}

// How often the first call looks for the flag before it gives up.
const TURNS: u32 = 10_000_000;

// The first call waits until the second one has set the flag.
fn pass(flag: &AtomicU64, call: u64) -> Result<u64, TantivyError> {
    if call == 1 {
        flag.store(1, Ordering::SeqCst);
        return Ok(call);
    }
    for _ in 0..TURNS {
        if flag.load(Ordering::SeqCst) == 1 {
            return Ok(call);
        }
    }
    Err(TantivyError::Exhausted)
}

// What the two calls answer.
fn passed<R: Threads + Sync>(
    rt: &R,
    alloc: Global,
    executor: Executor,
) -> Result<Vec<u64>, TantivyError> {
    let flag = AtomicU64::new(0);
    let shared = &flag;
    executor.map(rt, alloc, |call| pass(shared, call), 0..2)
}

#[test]
fn map_gate(rt: HostRuntime) {
    let by_two = passed(&rt, rt.alloc(), Executor::multi_thread(2, "gate"));
    assert!(rt; told(&rt, rt.alloc(), by_two, "Ok([0, 1])"));
    let by_one = passed(&rt, rt.alloc(), Executor::single_thread());
    assert!(rt; told(&rt, rt.alloc(), by_one, "Err(Exhausted)"));
}
