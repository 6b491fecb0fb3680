//! Schemas and commits: texts in several spellings, texts that are refused, and what is printed.
use crate::compare::{are_bytes, is_made, is_number, is_text};
use std::alloc::Global;
use std::process::Abort;
use tv_base::{Opstamp, TantivyError};
use tv_formats::SegmentComponent;
use tv_index::{
    Compressor, IndexSettings, InnerSegmentMeta, Order, Schema, SegmentId, SegmentMeta,
    SegmentMetaInventory, UntrackedIndexMeta,
};
use tv_test_support::{done, reads, told};

// The schema of one text field.
pub(crate) const T: &str =
    "[{\"name\":\"text\",\"type\":\"text\",\"options\":{\"indexing\":{\"record\":\"position\",\"fieldnorms\":true,\"tokenizer\":\"default\"},\"stored\":false,\"fast\":false}}]";

// The first commit of an index with this schema.
pub(crate) const FIRST: &str =
    "{\"index_settings\":{\"docstore_compression\":\"none\",\"docstore_blocksize\":16384},\"segments\":[],\"schema\":[{\"name\":\"text\",\"type\":\"text\",\"options\":{\"indexing\":{\"record\":\"position\",\"fieldnorms\":true,\"tokenizer\":\"default\"},\"stored\":false,\"fast\":false}}],\"opstamp\":0}";

// The same with blanks between its parts, and a field that is no part of it.
const WITH_BLANKS: &str =
    "{ \"x\":1,\n\"index_settings\" : {\"docstore_compression\":\"none\" , \"docstore_blocksize\":16384},\n\t\"segments\": [ ] ,\"schema\":\n[ {\"name\" : \"text\",\"type\":\"text\",\"options\":{\"indexing\":{\"record\":\"position\",\"fieldnorms\":true,\"tokenizer\":\"default\"},\"stored\":false,\"fast\":false}}],\r\"opstamp\" :0}\n";

/// What is answered where the bytes of `meta.json` mean no commit.
pub(crate) const CORRUPT: &str =
    r#"Err(DataCorruption(Data corruption (in file `"meta.json"`): ..))"#;

/// What is answered where they mean one of another schema.
pub(crate) const OTHER_SCHEMA: &str =
    r#"Err(SchemaError("An index exists but the schema does not match."))"#;

// Bytes, and what becomes of them where the schema without fields is expected: a commit that is printed so, or an
// error.
const METAS: &[(&str, &str)] = &[
    ("{", CORRUPT),
    (FIRST, OTHER_SCHEMA),
    // A segment twice, and one of whose three documents four are deleted.
    (
        "{\"schema\":[],\"opstamp\":2,\"segments\":[{\"segment_id\":\"a5c4dfcbdfe645089129e308e26d5523\",\"max_doc\":3},{\"segment_id\":\"a5c4dfcb-dfe6-4508-9129-e308e26d5523\",\"max_doc\":4}]}",
        CORRUPT,
    ),
    (
        "{\"schema\":[],\"opstamp\":2,\"segments\":[{\"segment_id\":\"a5c4dfcbdfe645089129e308e26d5523\",\"max_doc\":3,\"deletes\":{\"num_deleted_docs\":4,\"opstamp\":1}}]}",
        CORRUPT,
    ),
    (
        "{\"index_settings\":{\"docstore_compression\":\"lz4\"},\"schema\":[],\"opstamp\":2,\"segments\":[]}",
        CORRUPT,
    ),
    (
        "{\"index_settings\":null,\"schema\":[],\"opstamp\":2,\"segments\":[]}",
        CORRUPT,
    ),
    ("{\"schema\":[],\"opstamp\":2}", CORRUPT),
    ("{\"schema\":[],\"opstamp\":2.0,\"segments\":[]}", CORRUPT),
    (
        "{\"schema\":[],\"opstamp\":18446744073709551616,\"segments\":[]}",
        CORRUPT,
    ),
    (
        "{\"schema\":[],\"opstamp\":2,\"segments\":[],\"payload\":7}",
        CORRUPT,
    ),
    (
        "{\"schema\":[{\"name\":\"a\"}],\"opstamp\":2,\"segments\":[]}",
        CORRUPT,
    ),
    (
        "{\"schema\":[],\"opstamp\":2,\"segments\":[{\"segment_id\":\"a5c4dfcbdfe645089129e308e26d5523\",\"max_doc\":4294967296}]}",
        CORRUPT,
    ),
    (
        "{\"schema\":[],\"opstamp\":2,\"segments\":[{\"segment_id\":\"a5c4dfcbdfe645089129e308e26d552\",\"max_doc\":3}]}",
        CORRUPT,
    ),
    // Of a repeated key the last counts, and what is left out has its default.
    (
        "{\"opstamp\":1,\"schema\":{},\"schema\":[ ],\"opstamp\":2,\"segments\":[],\"payload\":null}",
        "{\"index_settings\":{\"docstore_compression\":\"none\",\"docstore_blocksize\":16384},\"segments\":[],\"schema\":[],\"opstamp\":2}",
    ),
    (
        "{\"index_settings\":{\"docstore_blocksize\":5,\"docstore_compress_dedicated_thread\":false},\"schema\":[],\"opstamp\":18446744073709551615,\"segments\":[]}",
        "{\"index_settings\":{\"docstore_compression\":\"none\",\"docstore_compress_dedicated_thread\":false,\"docstore_blocksize\":5},\"segments\":[],\"schema\":[],\"opstamp\":18446744073709551615}",
    ),
    // Segments in another order than that of their ids.
    (
        "{\"schema\":[],\"opstamp\":1,\"segments\":[{\"segment_id\":\"A5C4DFCBDFE645089129E308E26D5523\",\"max_doc\":3,\"deletes\":null},{\"max_doc\":9,\"segment_id\":\"{00000000-0000-0000-0000-000000000001}\",\"deletes\":{\"opstamp\":7,\"num_deleted_docs\":9}}]}",
        "{\"index_settings\":{\"docstore_compression\":\"none\",\"docstore_blocksize\":16384},\"segments\":[{\"segment_id\":\"00000000-0000-0000-0000-000000000001\",\"max_doc\":9,\"deletes\":{\"num_deleted_docs\":9,\"opstamp\":7}},{\"segment_id\":\"a5c4dfcb-dfe6-4508-9129-e308e26d5523\",\"max_doc\":3,\"deletes\":null}],\"schema\":[],\"opstamp\":1}",
    ),
    // A delete of no document.
    (
        "{\"schema\":[],\"opstamp\":8,\"segments\":[{\"segment_id\":\"a5c4dfcbdfe645089129e308e26d5523\",\"max_doc\":3,\"deletes\":{\"num_deleted_docs\":0,\"opstamp\":7}}]}",
        "{\"index_settings\":{\"docstore_compression\":\"none\",\"docstore_blocksize\":16384},\"segments\":[{\"segment_id\":\"a5c4dfcb-dfe6-4508-9129-e308e26d5523\",\"max_doc\":3,\"deletes\":{\"num_deleted_docs\":0,\"opstamp\":7}}],\"schema\":[],\"opstamp\":8}",
    ),
    // A payload, and one with characters that are escaped.
    (
        "{\"schema\":[],\"opstamp\":2,\"segments\":[],\"payload\":\"\\u0068i\"}",
        "{\"index_settings\":{\"docstore_compression\":\"none\",\"docstore_blocksize\":16384},\"segments\":[],\"schema\":[],\"opstamp\":2,\"payload\":\"hi\"}",
    ),
    (
        "{\"schema\":[],\"opstamp\":2,\"segments\":[],\"payload\":\"\\u0022\\u005c\\u0008\\u000C\\u000a\\u000d\\u0009\\u001f\\u007f\\/\\u00e9\"}",
        "{\"index_settings\":{\"docstore_compression\":\"none\",\"docstore_blocksize\":16384},\"segments\":[],\"schema\":[],\"opstamp\":2,\"payload\":\"\\\"\\\\\\b\\f\\n\\r\\t\\u001f\u{7f}/\u{e9}\"}",
    ),
];

// A schema, from bytes that spell one.
pub(crate) fn schema<R: Abort>(rt: &R, alloc: Global, bytes: &str) -> Schema {
    Schema::from_bytes(alloc, bytes.as_bytes()).expect(rt, "a schema")
}

// A commit whose schema is another spelling of the one that is printed.
const SPELLED: &str =
    "{\"schema\":[ {\"type\":\"t\", \"name\":\"\\u0061\"}],\"opstamp\":2,\"segments\":[]}";

const SPELLED_PRINTED: &str =
    "{\"index_settings\":{\"docstore_compression\":\"none\",\"docstore_blocksize\":16384},\"segments\":[],\"schema\":[{\"name\":\"a\",\"type\":\"t\"}],\"opstamp\":2}";

// What is printed of the commit that these bytes mean.
fn printed(
    alloc: Global,
    bytes: &[u8],
    expected: Option<&Schema>,
) -> Result<Vec<u8>, TantivyError> {
    let meta = UntrackedIndexMeta::parse(alloc, bytes, expected)?;
    Ok(meta.print(alloc)?)
}

#[test]
fn metas_are_read_and_printed(rt: HostRuntime) {
    let a = rt.alloc();
    let none = schema(&rt, a, "[]");
    for (bytes, want) in METAS {
        assert!(rt; reads(&rt, a, printed(a, bytes.as_bytes(), Some(&none)), want));
    }
    assert!(rt; reads(&rt, a, printed(a, b"{\"\xff\":1}", Some(&none)), CORRUPT));
    let text = schema(&rt, a, T);
    for bytes in [FIRST, WITH_BLANKS] {
        assert!(rt; reads(&rt, a, printed(a, bytes.as_bytes(), Some(&text)), FIRST));
    }
    // Where no schema is expected, the commit has its own.
    assert!(rt;
        reads(
            &rt,
            a,
            printed(a, SPELLED.as_bytes(), None),
            SPELLED_PRINTED
        )
    );
}

// Bytes that spell no schema. The numbers of one become one where its blanks are left out.
const NO_SCHEMAS: &[&str] = &[
    "",
    "{}",
    "[1]",
    "[",
    "[{\"name\":\"a\"}]",
    "[{\"name\":\"a\",\"type\":7}]",
    "[{\"name\":\"a\",\"type\":\"t\"},{\"name\":\"\\u0061\",\"type\":\"u\"}]",
    "[{\"name\":\"a\",\"type\":\"t\",\"x\":1.5}]",
    "[{\"name\":\"a\",\"type\":\"t\",\"x\":1 2}]",
];

const NO_SCHEMA: &str = r#"Err(InvalidArgument("the schema is not of the stated form"))"#;

#[test]
fn schemas_are_refused(rt: HostRuntime) {
    let a = rt.alloc();
    for bytes in NO_SCHEMAS {
        assert!(rt;
            told(
                &rt,
                a,
                done(Schema::from_bytes(a, bytes.as_bytes())),
                NO_SCHEMA
            )
        );
    }
}

// Looks at the text of a schema, and at the name of its one field.
fn has_text<R: Abort>(rt: &R, schema: &Schema, text: &str, name: &str) {
    are_bytes(rt, schema.text(), text.as_bytes());
    match schema.names() {
        [only] => is_text(rt, only.as_str(), name),
        _ => panic!(rt; "other names"),
    }
}

// Whether a schema is the one that these bytes spell.
fn is_same<R: Abort>(rt: &R, alloc: Global, one: &Schema, bytes: &str) -> bool {
    one.same(&schema(rt, alloc, bytes))
}

// Looks at the text of a schema, and of its copy.
fn keeps_text<R: Abort>(rt: &R, alloc: Global, one: &Schema, text: &str, name: &str) {
    has_text(rt, one, text, name);
    has_text(rt, &one.share(alloc).expect(rt, "memory"), text, name);
}

#[test]
fn a_schema_keeps_its_text(rt: HostRuntime) {
    let a = rt.alloc();
    let one = schema(&rt, a, " [ {\"name\" : \"a b\", \"type\":\"t\\\" \"}\n]\t");
    let text = "[{\"name\":\"a b\",\"type\":\"t\\\" \"}]";
    keeps_text(&rt, a, &one, text, "a b");
    let same = "[{\"type\":\"t\\u0022 \",\"name\":\"a b\"}]";
    assert!(rt; is_same(&rt, a, &one, same));
    assert!(rt; !is_same(&rt, a, &one, "[]"));
    keeps_text(&rt, a, &schema(&rt, a, T), T, "text");
}

// Whether a text spells this id.
fn spells<R: Abort>(rt: &R, alloc: Global, text: &str, want: &str) {
    let id: SegmentId = text.parse().expect(rt, "an id");
    is_made(rt, id.uuid_string(alloc), want);
    is_made(rt, id.short_uuid_string(alloc), "a5c4dfcb");
}

#[test]
fn ids_are_read(rt: HostRuntime) {
    let a = rt.alloc();
    for text in [
        "a5c4dfcbdfe645089129e308e26d5523",
        "a5c4dfcb-dfe6-4508-9129-e308e26d5523",
    ] {
        spells(&rt, a, text, "a5c4dfcbdfe645089129e308e26d5523");
    }
    assert!(rt; SegmentId::from_uuid_string("a5c4dfcbdfe645089129e308e26d5523b").is_err());
}

#[test]
fn settings_and_orders(rt: HostRuntime) {
    let settings = IndexSettings::new();
    assert!(rt; settings.docstore_compression == Compressor::None);
    assert!(rt; settings.docstore_compress_dedicated_thread);
    assert!(rt; settings.docstore_blocksize == 16384);
    assert!(rt; Order::Asc.is_asc() && !Order::Asc.is_desc());
    assert!(rt; Order::Desc.is_desc() && !Order::Desc.is_asc());
}

// A segment of three documents, none of which is deleted by the delete of this number.
fn tracked<R: Abort>(
    rt: &R,
    inventory: &mut SegmentMetaInventory,
    opstamp: Opstamp,
) -> SegmentMeta {
    let segment_id = "a5c4dfcbdfe645089129e308e26d5523"
        .parse()
        .expect(rt, "an id");
    let meta = inventory
        .new_segment_meta(segment_id, 3)
        .expect(rt, "memory");
    meta.with_delete_meta(0, opstamp, inventory)
        .expect(rt, "memory")
}

// Looks at a segment of three documents, and at the names of its files.
fn has_three<R: Abort>(rt: &R, alloc: Global, meta: &SegmentMeta) {
    assert!(rt; !meta.has_deletes());
    assert!(rt; meta.num_docs() == 3 && meta.max_doc() == 3 && meta.num_deleted_docs() == 0);
    assert!(rt; meta.delete_opstamp() == Some(7));
    let path = meta.relative_path(alloc, SegmentComponent::Delete);
    is_made(rt, path, "a5c4dfcbdfe645089129e308e26d5523.7.del");
}

// Looks how many files a segment has.
fn has_files<R: Abort>(rt: &R, alloc: Global, meta: &SegmentMeta) {
    let files = meta.list_files(alloc).expect(rt, "memory");
    is_number(rt, files.len() as u64, 7);
}

// Looks at another share of a segment, and gives it back.
fn shares<R: Abort>(rt: &R, inventory: &mut SegmentMetaInventory, meta: &SegmentMeta) {
    let other = inventory.share(meta).expect(rt, "few shares");
    assert!(rt; other.id() == meta.id());
    inventory.release(other);
}

// Tracks a segment, looks at it, and gives it back.
fn tracks<R: Abort>(rt: &R, alloc: Global, inventory: &mut SegmentMetaInventory) {
    let meta = tracked(rt, inventory, 7);
    has_three(rt, alloc, &meta);
    has_files(rt, alloc, &meta);
    shares(rt, inventory, &meta);
    inventory.release(meta);
}

#[test]
fn a_delete_of_no_document_has_a_file_name(rt: HostRuntime) {
    let mut inventory = SegmentMetaInventory::new(rt.alloc());
    tracks(&rt, rt.alloc(), &mut inventory);
}

// Looks how many documents a segment has, and gives it back.
fn has_five<R: Abort>(rt: &R, inventory: &mut SegmentMetaInventory, meta: SegmentMeta) {
    is_number(rt, u64::from(meta.num_docs()), 5);
    inventory.release(meta);
}

// Counts the documents of a segment late.
fn counts_late<R: Abort>(rt: &R, inventory: &mut SegmentMetaInventory, id: SegmentId) {
    let meta = inventory.new_segment_meta(id, 0).expect(rt, "memory");
    let meta = meta.with_max_doc(5, inventory).expect(rt, "memory");
    has_five(rt, inventory, meta);
}

// Tracks a segment whose documents are counted.
fn tracks_counted<R: Abort>(rt: &R, inventory: &mut SegmentMetaInventory, segment_id: SegmentId) {
    let inner = InnerSegmentMeta {
        segment_id,
        max_doc: 5,
        deletes: None,
    };
    let meta = inner.track(inventory).expect(rt, "memory");
    has_five(rt, inventory, meta);
}

#[test]
fn documents_are_counted_late(rt: HostRuntime) {
    let mut inventory = SegmentMetaInventory::new(rt.alloc());
    let id = SegmentId::from_bytes([7; 16]);
    counts_late(&rt, &mut inventory, id);
    tracks_counted(&rt, &mut inventory, id);
}
