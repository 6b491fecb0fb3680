//! Laws on which a user of this crate may rely. Each function makes the calls of which it speaks; its
//! contract is the law.
ghost use Rattle.std.specs.Prelude.{◌≡◌, ◌≤◌, ◌<◌, ◌+◌, ◌⊎◌, false, None, Some, Ok, Result, IfErr, IfOk, IfSome, OnErr, OnOk};
ghost use Rattle.std.specs.Prelude.{codes, length, map, string_bytes, take};
ghost use Rattle.std.specs.Ordering.{nat_cmp, ordering_then};
ghost use Rattle.futures.specs.Poll.{OnPending};
ghost use Rattle.futures.specs.Task.{IsArmed};
ghost use Rattle.tv_base.specs.Maps.{IsOf, first_error};

use crate::address::DocAddress;
use crate::error::TantivyError;
use crate::executor::Executor;
use crate::exhausted::Exhausted;
use crate::future_result::FutureResult;
use crate::inventory::{Inventory, Ticket};
use crate::library::version;
use crate::names::is_plain_name;
use crate::stamper::Stamper;
use crate::vint::VInt;
use futures::task::{Context, Poll};
use std::alloc::{AllocError, Global};
use std::cmp::Ordering;
use std::thread::Threads;
use tv_formats::{Memory, Opstamp};

/// An inventory gives a number once: that of a value which is taken in is no smaller than the next
/// one was, and smaller than the next one is.
pub fn gives_a_number_once<T: Drop>(
    inventory: &mut Inventory<T>,
    value: T,
) -> Result<Ticket, Memory>
    ensures unused { IfOk result (λ ticket. inventory.old.next ≤ ticket) }
    ensures used { IfOk result (λ ticket. ticket < inventory.new.next) }
{
    inventory.track(value)
}

/// A number isn't given again once its last ticket came back: a value that is taken in afterwards
/// gets a larger one.
pub fn gives_no_number_again<T: Drop>(
    inventory: &mut Inventory<T>,
    ticket: Ticket,
    value: T,
) -> Result<Ticket, Memory>
    ensures { ticket < inventory.old.next → IfOk result (λ other. ticket < other) }
{
    inventory.release(ticket);
    inventory.track(value)
}

/// A value goes with its last ticket: one that is taken in and whose ticket is given back leaves the
/// others as they were.
pub fn drops_a_value_with_its_last_ticket<T: Drop>(
    inventory: &mut Inventory<T>,
    value: T,
) -> Result<(), Memory>
    ensures { OnOk result (inventory.new.entries ≡ inventory.old.entries) }
{
    let ticket = inventory.track(value)?;
    inventory.release(ticket);
    Ok(())
}

/// No file may have a name of more than 255 bytes.
pub fn refuses_a_long_name(name: &str) -> bool
    ensures { 255 < length name.now → result ≡ false }
{
    is_plain_name(name)
}

/// A result that a poll answers isn't there yet is still to come: neither is it there, nor was it
/// answered, and the task is woken.
pub fn waits_until_the_result_is_there<T: Drop>(
    future: &mut FutureResult<T>,
    cx: &mut Context<'_>,
) -> Poll<Result<T, TantivyError>>
    requires unanswered { future.old.answered ≡ false }
    ensures coming { OnPending result (future.new.finished ≡ None) }
    ensures unanswered { OnPending result (future.new.answered ≡ false) }
    ensures registered { OnPending result (IsArmed cx.new) }
{
    future.poll(cx)
}

/// A number has one spelling: what is read is what would be written of it.
pub fn reads_what_is_written(
    alloc: Global,
    bytes: &[u8],
) -> Result<Option<(Vec<u8>, usize)>, Memory>
    ensures { IfOk result (λ read. IfSome read (λ r. r.0.items ≡ take r.1 bytes.now)) }
{
    let Some((number, size)) = VInt::deserialize(bytes) else {
        return Ok(None);
    };
    let mut written = Vec::new(alloc);
    number.serialize(&mut written)?;
    Ok(Some((written, size)))
}

/// Addresses are in order of their segments, and those of one segment in order of their documents.
pub fn orders_addresses(one: &DocAddress, other: &DocAddress) -> Ordering
    ensures { result ≡ ordering_then (nat_cmp one.now.segment_ord other.now.segment_ord)
        (nat_cmp one.now.doc_id other.now.doc_id) }
{
    one.cmp(other)
}

/// The version is shown as `version_string` has it.
pub fn shows_the_version(alloc: Global) -> Result<String, AllocError>
    ensures { IfOk result (λ text. string_bytes text ≡ codes "tantivy v0.26.2, index_format v7") }
{
    version().to_string(alloc)
}

/// A stamp is drawn once: of two that are drawn one after the other, the second is the larger. So the
/// numbers don't begin anew past the last one.
pub fn draws_larger_stamps(stamper: &mut Stamper) -> Result<(Opstamp, Opstamp), Exhausted>
    ensures { IfOk result (λ stamps. stamps.0 < stamps.1) }
{
    let first = stamper.stamp()?;
    let second = stamper.stamp()?;
    Ok((first, second))
}

/// Stamps that are drawn together aren't drawn again: the next one comes behind them.
pub fn draws_stamps_once(stamper: &mut Stamper, n: u64) -> Result<Opstamp, Exhausted>
    ensures { IfOk result (λ stamp. stamp ≡ stamper.old + n) }
{
    stamper.stamps(n)?;
    stamper.stamp()
}

/// A refused draw draws nothing: the next stamp is the one that it was.
pub fn draws_nothing_at_a_refusal(stamper: &mut Stamper) -> Result<Opstamp, Exhausted>
    ensures { OnErr result (stamper.new ≡ stamper.old) }
{
    stamper.stamp()
}

/// Neither do refused draws of several stamps.
pub fn draws_no_part_at_a_refusal(stamper: &mut Stamper, n: u64) -> Result<(), Exhausted>
    ensures { OnErr result (stamper.new ≡ stamper.old) }
{
    stamper.stamps(n)?;
    Ok(())
}

/// A map leaves out no answer and keeps their order, and by any number of threads they are the same:
/// where the answers of `f` are those of a function, its values at the arguments are answered.
pub fn maps_alike_by_any_executor<
    R: Threads + Sync,
    A: Send + Drop,
    T: Send + Drop,
    F: Fn(A) -> Result<T, TantivyError> + Sync,
>(executor: &Executor, rt: &R, alloc: Global, f: F, args: Vec<A>) -> Result<Vec<T>, TantivyError>
    requires callable { F.IsAlwaysCallable f }
    ensures { (g : A → Result T TantivyError) → IsOf (F.post f) g
        → IfOk result (λ values. map g args.items ≡ map Ok values.items) }
{
    executor.map(rt, alloc, f, args.into_iter())
}

/// No later error is answered: where the answers of `f` are those of a function, the error is the one
/// of least position, by any number of threads.
pub fn answers_the_first_error<
    R: Threads + Sync,
    A: Send + Drop,
    T: Send + Drop,
    F: Fn(A) -> Result<T, TantivyError> + Sync,
>(executor: &Executor, rt: &R, alloc: Global, f: F, args: Vec<A>) -> Result<Vec<T>, TantivyError>
    requires callable { F.IsAlwaysCallable f }
    ensures { (g : A → Result T TantivyError) → IsOf (F.post f) g
        → IfErr result (λ error. (error ≡ TantivyError.Memory)
        ⊎ (first_error (map g args.items) ≡ Some error)) }
{
    executor.map(rt, alloc, f, args.into_iter())
}
