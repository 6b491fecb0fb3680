//! Laws of lines: what reading one promises to whoever uses it. Each calls the real one, and says in
//! a user's words what follows from its contract.
ghost use Rattle.std.specs.Prelude.{◌≡◌, ◌≢◌, ◌≤◌, ◌++◌, [], ◌∷◌, ℕ, List, None, Ok, Some, codes, length, map, IfOk, IfSome};
ghost use Rattle.std.specs.List.{join_with_byte};
ghost use Rattle.hex.specs.Hex.{decode_of, encode_lower};
ghost use Rattle.tv_events.specs.declared.event.Event.TheVariants as events;
ghost use Rattle.tv_events.specs.Script.{Fits, line_limit};

use crate::script::parse_event;
use std::alloc::Global;
use tv_events::Event;
use tv_formats::Memory;

/// A line spells its event in one way: a number has no leading zero, one space alone stands between
/// two words, and an id has lower-case digits.
pub fn spells_an_event_one_way(alloc: Global, line: &[u8]) -> Result<Option<Event>, Memory>
    ensures zero { (rest : List ℕ) → rest ≢ [] → line.now ≡ codes "reload 0" ++ rest
        → IfOk result (λ found. found ≡ None) }
    ensures spaces { (front rest : List ℕ) → line.now ≡ front ++ 32 ∷ 32 ∷ rest
        → IfOk result (λ found. found ≡ None) }
    ensures lower { (word : List ℕ) → line.now ≡ codes "segment " ++ word
        → IfOk result (λ found. IfSome found (λ event.
        (id : List ℕ) × (event ≡ events.Segment id) × (word ≡ encode_lower id))) }
{
    parse_event(alloc, line)
}

/// The line of a commit with a payload is read with that payload, and with its ids.
pub fn keeps_the_payload(alloc: Global, line: &[u8]) -> Result<Option<Event>, Memory>
    ensures { (text digits : List ℕ) (ids : List (List ℕ))
        → Fits (events.Commit (Some text) ids) → decode_of digits ≡ Ok text
        → line.now ≡ join_with_byte 32
        (codes "commit" ∷ (43 ∷ digits) ∷ map encode_lower ids)
        → length line.now ≤ line_limit
        → IfOk result (λ found. found ≡ Some (events.Commit (Some text) ids)) }
{
    parse_event(alloc, line)
}
