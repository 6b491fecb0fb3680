//! What a run says to its place, or tells to a directory that was lent.
ghost use Rattle.std.specs.Prelude.{◌≡◌, None, IsSome, true};
ghost use Rattle.tv_device.specs.Images.{KeepsDisk};
ghost use Rattle.tv_formats.specs.Files.{has_no_feed};
ghost use Rattle.tv_replay.specs.ErrorLines.{error_line};
ghost use Rattle.tv_replay.specs.Runs.{IsStatusOf, OnlySays, Reports, ReportsError, SaysError, TellsOrPart};
ghost use Rattle.tv_replay.specs.SpaceRuns.{EndsText};

use crate::error_line::error_line;
use crate::place::Place;
use std::alloc::Global;
use tv_base::TantivyError;
use tv_device::Outside;

/// What is told or said where memory was wanted.
pub(crate) const MEMORY_LINE: &[u8] = b"error memory";

/// Says a text, or the line of the error where the place refuses that, and answers the status.
pub(crate) fn say_text<P: Place>(alloc: Global, place: &mut P, text: &[u8]) -> u8
    ensures { EndsText P.told text.now (P.view place.old) (P.view place.new) result }
{
    match place.say(text) {
        Ok(()) => 0,
        Err(fault) => say_error(alloc, place, TantivyError::IoError(fault)),
    }
}

/// Says a line.
#[tactic(auto, using(crate::proofs::Runs::only_says))]
pub(crate) fn say_line<P: Place>(place: &mut P, line: &[u8])
    ensures says { OnlySays P.told (P.view place.old) (P.view place.new) line.now }
{
    let _refused = place.say(line);
}

/// Says the line of an error, and answers its status.
pub(crate) fn say_error<P: Place>(alloc: Global, place: &mut P, error: TantivyError) -> u8
    ensures { SaysError P.told (P.view place.old) (P.view place.new) error result }
{
    match error_line(alloc, &error) {
        Ok(line) => {
            say_line(place, line.as_slice());
            status_of(&error)
        }
        Err(_) => {
            say_line(place, MEMORY_LINE);
            3
        }
    }
}

// The status of an error.
fn status_of(error: &TantivyError) -> u8
    ensures { IsStatusOf error.now result }
{
    match error {
        TantivyError::Memory => 3,
        _ => 1,
    }
}

/// Tells the line of an error to the directory that was lent, and gives that back; where the line
/// can't be told, it is said. Answers the status of the error.
pub(crate) fn give_back_after<P: Place>(
    alloc: Global,
    place: &mut P,
    outside: P::Out,
    error: TantivyError,
) -> u8
    requires lent { IsSome (P.view place.old).lent }
    requires feed { has_no_feed (error_line error) ≡ true }
    ensures { ReportsError P.Out.Directory P.told
        (record { stopped = outside; old = P.view place.old; new = P.view place.new })
        error result }
{
    match error_line(alloc, &error) {
        Ok(line) => {
            report(place, outside, line.as_slice());
            status_of(&error)
        }
        Err(_) => {
            report(place, outside, MEMORY_LINE);
            3
        }
    }
}

// Tells a line to the directory that was lent, and gives that back; where it can't be told, it is
// said.
fn report<P: Place>(place: &mut P, outside: P::Out, line: &[u8])
    requires lent { IsSome (P.view place.old).lent }
    requires feed { has_no_feed line.now ≡ true }
    ensures free { (P.view place.new).lent ≡ None }
    ensures reports { Reports P.Out.Directory P.told
        (record { stopped = outside; old = P.view place.old; new = P.view place.new }) line.now }
{
    let mut outside = outside;
    let told = tell_line(&mut outside, line);
    place.give_back(outside);
    if told {
        return;
    }
    say_line(place, line);
}

// Tells a line, where there is room for it and it isn't refused.
fn tell_line<O: Outside>(outside: &mut O, line: &[u8]) -> bool
    requires { has_no_feed line.now ≡ true }
    ensures tells { TellsOrPart O.told (O.view outside.old) (O.view outside.new) line.now result }
    ensures images { O.tells_images → KeepsDisk (O.disk outside.old) (O.disk outside.new) }
{
    match outside.ready(line.len()) {
        Ok(()) => outside.tell(line).is_ok(),
        Err(_) => false,
    }
}
