//! The warmers of a reader, each at its place.
ghost use Rattle.std.specs.Prelude.{◌≡◌, ◌<◌, IfErr, IfOk, None, OnErr, OnOk, Some, get_or, is_some, map, vec_len};
ghost use Rattle.std.specs.List.{AllZip, list_any};
ghost use Rattle.tv_reader.specs.Warming.{Called, Changes, Collects, InOrder, Stopped, Warmed, Warms, WasTold, has_ended, new_warmers, without_warmer};

use crate::generation::SearcherGeneration;
use crate::searcher::Searcher;
use crate::warmer::Warmer;
use std::alloc::Global;
use std::marker::Model;
use tv_base::{Memory, TantivyError};

/// The warmers that are left, each at its place, and the numbers of the generations that they warmed.
#[derive(Drop)]
pub struct Warmers<W> {
    warmed: Vec<u64>,
    slots: Vec<Option<W>>,
}

impl<W> Model for Warmers<W> {
    ghost use Rattle.tv_reader.specs.Warming.{WarmersState};

    ghost Value = { WarmersState W };

    ghost view = { λ a. record { warmed = a.warmed.items; left = a.slots.items } };
}

// Warms by one warmer, where it is left.
fn warm_one<W: Warmer>(slot: &mut Option<W>, searcher: &Searcher) -> Result<(), TantivyError>
    ensures ok { OnOk result (Called W.errors W.test W.called_for (Warmed searcher.now.shown)
        slot.old slot.new) }
    ensures err { IfErr result (λ e. Stopped W.errors W.test W.called_for (Warmed searcher.now.shown) e
        slot.old slot.new) }
{
    let Some(warmer) = slot else {
        return Ok(());
    };
    if let Err(error) = warmer.warm(searcher) {
        return Err(error);
    }
    Ok(())
}

// Warms by the warmer at a place.
fn warm_at<W: Warmer>(
    slots: &mut Vec<Option<W>>,
    i: usize,
    searcher: &Searcher,
) -> Result<(), TantivyError>
    requires { i < vec_len slots.old }
    ensures ok { OnOk result (Changes
        (Called W.errors W.test W.called_for (Warmed searcher.now.shown))
        slots.old.items slots.new.items i) }
    ensures err { IfErr result (λ e.
        Changes (Stopped W.errors W.test W.called_for (Warmed searcher.now.shown) e)
        slots.old.items slots.new.items i) }
{
    if let Err(error) = warm_one(&mut slots[i], searcher) {
        return Err(error);
    }
    Ok(())
}

// Warms by each in order, up to the first error.
fn warm_all<W: Warmer>(slots: &mut Vec<Option<W>>, searcher: &Searcher) -> Result<(), TantivyError>
    ensures { InOrder (Called W.errors W.test W.called_for (Warmed searcher.now.shown))
        (Stopped W.errors W.test W.called_for (Warmed searcher.now.shown))
        slots.old.items slots.new.items result }
{
    for i in 0..slots.len() {
        if let Err(error) = warm_at(slots, i, searcher) {
            return Err(error);
        }
    }
    Ok(())
}

// Hands live generations to one warmer, where it is left.
fn collect_one<W: Warmer>(slot: &mut Option<W>, live: &[SearcherGeneration])
    ensures { Called W.errors W.test W.called_for (WasTold live.now) slot.old slot.new }
{
    if let Some(warmer) = slot {
        warmer.garbage_collect(live);
    }
}

// Hands live generations to the warmer at a place.
fn collect_at<W: Warmer>(slots: &mut Vec<Option<W>>, i: usize, live: &[SearcherGeneration])
    requires { i < vec_len slots.old }
    ensures { Changes (Called W.errors W.test W.called_for (WasTold live.now))
        slots.old.items slots.new.items i }
{
    collect_one(&mut slots[i], live);
}

// Hands live generations to each.
fn collect_all<W: Warmer>(slots: &mut Vec<Option<W>>, live: &[SearcherGeneration])
    ensures { AllZip (Called W.errors W.test W.called_for (WasTold live.now))
        slots.old.items slots.new.items }
{
    for i in 0..slots.len() {
        collect_at(slots, i, live);
    }
}

// The numbers of some generations.
fn ids_of(alloc: Global, live: &[SearcherGeneration]) -> Result<Vec<u64>, Memory>
    ensures { IfOk result (λ ids. ids.items ≡ map (λ g. g.id) live.now) }
{
    let mut ids = Vec::new(alloc);
    for generation in live {
        ids.push(generation.generation_id())?;
    }
    Ok(ids)
}

// Whether one of these generations isn't live any more.
fn has_ended(warmed: &[u64], live: &[u64]) -> bool
    ensures { result ≡ has_ended warmed.now live.now }
{
    warmed.iter().any(|id| !live.contains(id))
}

// Whether a warmer is left.
fn has_some<W>(slots: &[Option<W>]) -> bool
    ensures { result ≡ list_any is_some slots.now }
{
    slots.iter().any(|slot| slot.is_some())
}

// Each warmer at its place.
fn placed<W: Drop>(alloc: Global, warmers: Vec<W>) -> Result<Vec<Option<W>>, Memory>
    ensures { IfOk result (λ slots. slots.items ≡ map Some warmers.items) }
{
    let mut slots = Vec::new(alloc);
    for warmer in warmers {
        slots.push(Some(warmer))?;
    }
    Ok(slots)
}

impl<W: Drop> Warmers<W> {
    // These warmers, at places from 0 on. None of them warmed anything.
    pub(crate) fn new(alloc: Global, warmers: Vec<W>) -> Result<Warmers<W>, Memory>
        ensures { IfOk result (λ new. new ≡ new_warmers warmers.items) }
    {
        Ok(Warmers {
            warmed: Vec::new(alloc),
            slots: placed(alloc, warmers)?,
        })
    }

    // The warmer at a place, taken out. Takes no memory.
    pub(crate) fn take_warmer(&mut self, number: usize) -> Option<W>
        ensures warmer { result ≡ get_or self.old.left number None }
        ensures left { self.new ≡ without_warmer number self.old }
    {
        if number < self.slots.len() {
            self.slots[number].take()
        } else {
            None
        }
    }
}

impl<W: Warmer> Warmers<W> {
    // Warms a new searcher by each in order, up to the first error. Its generation is one that was
    // warmed, also after a warmer's error. Without warmers nothing is done.
    pub(crate) fn warm_new(&mut self, searcher: &Searcher) -> Result<(), TantivyError>
        ensures { Warms W.errors W.test W.called_for searcher.now.shown self.old self.new result }
    {
        if !has_some(self.slots.as_slice()) {
            return Ok(());
        }
        self.warmed.push(searcher.generation().generation_id())?;
        warm_all(&mut self.slots, searcher)
    }

    // Hands the live generations to each, once, where one that was warmed isn't live any more.
    // Then the live ones are those that were warmed.
    pub(crate) fn collect_ended(&mut self, live: &[SearcherGeneration]) -> Result<bool, Memory>
        ensures ok { IfOk result
            (Collects W.errors W.test W.called_for live.now self.old self.new) }
        ensures err { OnErr result (self.new ≡ self.old) }
    {
        let ids = ids_of(*self.warmed.allocator(), live)?;
        if !has_ended(self.warmed.as_slice(), ids.as_slice()) {
            return Ok(false);
        }
        collect_all(&mut self.slots, live);
        self.warmed = ids;
        Ok(true)
    }
}
