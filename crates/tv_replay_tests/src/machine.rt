//! Lists of ids, answers, and the laws of the machine.
use crate::compare::are_bytes;
use std::alloc::Global;
use std::process::Abort;
use tv_formats::SegmentId;
use tv_machine::{Answer, IdList, laws};

// More ids than the longest line of a script can name.
const MANY: u64 = 31_775;

// That many ids, the number of each in its last bytes, highest first.
fn ids<R: Abort>(rt: &R, alloc: Global, count: u64) -> Vec<SegmentId> {
    let mut ids = Vec::new(alloc);
    for number in (0..count).rev() {
        let id = u128::from(number).to_be_bytes();
        ids.push(SegmentId::from_bytes(id)).expect(rt, "memory");
    }
    ids
}

// Whether that many ids and this one are told apart.
fn are_told_apart<R: Abort>(rt: &R, alloc: Global, last: SegmentId) -> bool {
    let mut list = ids(rt, alloc, MANY);
    list.push(last).expect(rt, "memory");
    IdList::new(list).is_some()
}

#[test]
fn many_ids_are_told_apart(rt: HostRuntime) {
    assert!(rt; are_told_apart(&rt, rt.alloc(), SegmentId::from_bytes([0xff; 16])));
    assert!(rt; !are_told_apart(&rt, rt.alloc(), SegmentId::from_bytes([0; 16])));
}

#[test]
fn an_answer_has_its_bytes(rt: HostRuntime) {
    let text = Vec::from_slice(rt.alloc(), b"gc deleted failed").expect(&rt, "memory");
    let answer = Answer::from_bytes(text);
    are_bytes(&rt, answer.as_slice(), b"gc deleted failed");
}

#[test]
fn laws_are_called() {
    laws::searchers_keep_their_commit();
    tv_formats::laws::empty_directories_are_sound();
    laws::sound_starts_open_to_sound_states();
    laws::names_tell_their_segment();
    tv_formats::laws::ids_are_ordered_by_their_bytes();
    laws::collections_take_what_nothing_needs();
    laws::lines_tell_outcomes();
    laws::reports_determine_runs();
    laws::validations_name_damaged_files();
    tv_formats::laws::files_keep_their_body();
    tv_formats::laws::meta_json_keeps_commits();
    tv_formats::laws::json_spells_one_commit();
    tv_formats::laws::stripped_schemas_are_texts();
    tv_formats::laws::lists_tell_their_names();
    tv_framing::laws::footers_are_read_back();
}
