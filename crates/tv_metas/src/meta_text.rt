//! The text of `meta.json`, of the parts of a commit.
ghost use Rattle.std.specs.Prelude.{◌≡◌, ◌++◌, true, IfOk, OnOk, map, option_map};
ghost use Rattle.json.specs.Tree.{members_tokens};
ghost use Rattle.serde_json.specs.Written.{members_outline, members_text};
ghost use Rattle.tv_formats.specs.Commits.{last_members, payload_members, printed};
ghost use Rattle.tv_metas.specs.Segments.{entry_of};
ghost use Rattle.tv_metas.specs.Settings.{settings_view};

use crate::index_settings::IndexSettings;
use crate::printing::{write_segments, write_settings};
use crate::schema::Schema;
use crate::segment_meta::InnerSegmentMeta;
use json::Writer;
use std::alloc::Global;
use tv_formats::{Memory, Opstamp};

/// The text of `meta.json`, without its line feed: that of a commit with this number, this payload
/// and these segments, in the order in which they are handed in, which is to be that of their ids.
pub fn print_meta(
    alloc: Global,
    settings: &IndexSettings,
    schema: &Schema,
    segments: &[InnerSegmentMeta],
    opstamp: Opstamp,
    payload: Option<&str>,
) -> Result<Vec<u8>, Memory>
    ensures text { IfOk result (λ text. text.items
        ≡ printed (settings_view settings.now) schema.now (record {
          opstamp = opstamp;
          payload = option_map (λ s. s.now) payload.entry;
          segments = map entry_of segments.now;
        })) }
{
    let mut out = Writer::new(Vec::new(alloc));
    out.begin_object()?;
    out.key("index_settings")?;
    write_settings(&mut out, settings)?;
    out.key("segments")?;
    write_segments(alloc, &mut out, segments)?;
    out.key("schema")?;
    let mut text = out.into_inner();
    text.extend_from_slice(schema.text())?;
    ended(text, opstamp, payload)
}

// The object whose text begins so, with the number and the payload of a commit as its last members.
fn ended(mut text: Vec<u8>, opstamp: Opstamp, payload: Option<&str>) -> Result<Vec<u8>, Memory>
    ensures { IfOk result (λ whole. whole.items ≡ text.items
        ++ members_text true (last_members opstamp (option_map (λ s. s.now) payload.entry))) }
{
    text.push(b',')?;
    let mut out = Writer::new(text);
    out.key("opstamp")?;
    out.u64(opstamp)?;
    write_payload(&mut out, payload)?;
    Ok(out.into_inner())
}

// Writes the payload of a commit, where there is one, and ends the object.
fn write_payload(out: &mut Writer, payload: Option<&str>) -> Result<(), Memory>
    ensures before { OnOk result (out.new.before ≡ out.old.before) }
    ensures tokens { OnOk result (out.new.tokens ≡ out.old.tokens ++ members_tokens
        (members_outline (payload_members (option_map (λ s. s.now) payload.entry)))) }
{
    let Some(text) = payload else {
        out.end_object()?;
        return Ok(());
    };
    out.key("payload")?;
    out.string(text)?;
    out.end_object()?;
    Ok(())
}
