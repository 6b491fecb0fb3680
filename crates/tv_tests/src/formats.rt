//! Ids, and the names of a segment's files.
use crate::compare::{is_made, is_text, prints};
use tv_formats::{DeleteMeta, SegmentComponent, SegmentId, segment_file_name};
use tv_test_support::told;

const BYTES: [u8; 16] = [
    0xa5, 0xc4, 0xdf, 0xcb, 0xdf, 0xe6, 0x45, 0x08, 0x91, 0x29, 0xe3, 0x08, 0xe2, 0x6d, 0x55, 0x23,
];

fn id() -> SegmentId {
    SegmentId::from_bytes(BYTES)
}

#[test]
fn an_id_is_printed(rt: HostRuntime) {
    let a = rt.alloc();
    prints(&rt, a, id(), "Seg(\"a5c4dfcb\")");
    assert!(rt; told(&rt, a, id(), "Seg(\"a5c4dfcb\")"));
    is_made(&rt, id().uuid_string(a), "a5c4dfcbdfe645089129e308e26d5523");
    is_made(
        &rt,
        id().hyphenated_string(a),
        "a5c4dfcb-dfe6-4508-9129-e308e26d5523",
    );
}

#[test]
fn a_file_is_named_after_its_segment(rt: HostRuntime) {
    let deletes = DeleteMeta {
        num_deleted_docs: 2,
        opstamp: 7,
    };
    let made = segment_file_name(rt.alloc(), id(), Some(deletes), SegmentComponent::Delete);
    let name = made.expect(&rt, "memory");
    is_text(&rt, name.as_str(), "a5c4dfcbdfe645089129e308e26d5523.7.del");
}
