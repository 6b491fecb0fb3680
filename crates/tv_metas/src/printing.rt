//! The parts of a commit as JSON.
ghost use Rattle.std.specs.Prelude.{OnOk, map};
ghost use Rattle.tv_formats.specs.Commits.{deletes_tree, segment_tree, segments_tree, settings_tree};
ghost use Rattle.tv_metas.specs.Printing.{WritesTree};
ghost use Rattle.tv_metas.specs.Segments.{entry_of};
ghost use Rattle.tv_metas.specs.Settings.{settings_view};

use crate::index_settings::IndexSettings;
use crate::segment_meta::InnerSegmentMeta;
use json::Writer;
use std::alloc::Global;
use tv_formats::{DeleteMeta, Memory};

/// Writes the settings. Whether documents are compressed on a thread of their own stands there where
/// they are not.
pub(crate) fn write_settings(out: &mut Writer, settings: &IndexSettings) -> Result<(), Memory>
    ensures { OnOk result
        (WritesTree out.old out.new (settings_tree (settings_view settings.now))) }
{
    out.begin_object()?;
    out.key("docstore_compression")?;
    out.string("none")?;
    if !settings.docstore_compress_dedicated_thread {
        out.key("docstore_compress_dedicated_thread")?;
        out.boolean(false)?;
    }
    out.key("docstore_blocksize")?;
    out.u64(settings.docstore_blocksize)?;
    out.end_object()?;
    Ok(())
}

/// Writes the segments.
pub(crate) fn write_segments(
    alloc: Global,
    out: &mut Writer,
    segments: &[InnerSegmentMeta],
) -> Result<(), Memory>
    ensures { OnOk result
        (WritesTree out.old out.new (segments_tree (map entry_of segments.now))) }
{
    out.begin_array()?;
    for segment in segments {
        write_segment(alloc, out, segment)?;
    }
    out.end_array()?;
    Ok(())
}

// Writes a segment.
fn write_segment(alloc: Global, out: &mut Writer, segment: &InnerSegmentMeta) -> Result<(), Memory>
    ensures { OnOk result (WritesTree out.old out.new (segment_tree (entry_of segment.now))) }
{
    let id = segment.segment_id.hyphenated_string(alloc)?;
    out.begin_object()?;
    out.key("segment_id")?;
    out.string(id.as_str())?;
    out.key("max_doc")?;
    out.u64(u64::from(segment.max_doc))?;
    out.key("deletes")?;
    write_deletes(out, segment.deletes)?;
    out.end_object()?;
    Ok(())
}

// Writes how many documents of a segment are deleted, and by which delete.
fn write_deletes(out: &mut Writer, deletes: Option<DeleteMeta>) -> Result<(), Memory>
    ensures { OnOk result (WritesTree out.old out.new (deletes_tree deletes)) }
{
    let Some(meta) = deletes else {
        out.null()?;
        return Ok(());
    };
    out.begin_object()?;
    out.key("num_deleted_docs")?;
    out.u64(u64::from(meta.num_deleted_docs))?;
    out.key("opstamp")?;
    out.u64(meta.opstamp)?;
    out.end_object()?;
    Ok(())
}
