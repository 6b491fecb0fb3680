//! Laws of a store: what its calls promise to whoever uses them. Each calls the real one, and says
//! in a user's words what follows from its contract.
mod crashes;
mod events;
mod opening;
mod reloads;
mod saving;

pub use crashes::{
    a_closed_store_is_sound, a_want_of_memory_keeps_the_commit, an_event_survives_a_crash,
    an_opening_keeps_a_stored_commit,
};
pub use events::{
    bytes_reads_no_file, changes_nothing_where_it_refuses, commits_living_segments,
    draws_a_new_delete_name, reads_what_was_sealed, reload_shows_the_commit,
    reopens_what_was_committed,
};
pub use opening::{
    frees_its_lock_at_the_end, leaves_locks_as_they_were, names_and_spares_refused_bytes,
    spares_a_locked_directory, tells_damage_before_a_held_lock, writes_nothing_before_its_lock,
};
pub use reloads::{
    a_refused_deliver_ends_no_notice, a_reload_ends_no_notice, frees_the_lock_of_a_released_reader,
    holds_the_lock_for_a_reload, notes_the_current_commit, publishes_what_was_noted,
};
