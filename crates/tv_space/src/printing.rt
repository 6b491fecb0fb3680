//! How a report is printed.
ghost use Rattle.std.specs.Prelude.{◌≡◌, ◌++◌, ◌∷◌, [], IfOk, OnOk, codes, string_bytes};
ghost use Rattle.std.specs.Fmt.{decimal};
ghost use Rattle.tv_space.specs.ReportLines.{numbers_text, report_text, segment_line, segment_numbers};

use crate::segment_report::SegmentReport;
use std::alloc::Global;
use tv_base::ByteCount;
use tv_formats::Memory;
use tv_framing::SegmentSpaceUsage;

// The numbers of a segment's line.
fn numbers_of(space: &SegmentSpaceUsage) -> [u64; 9]
    ensures { result ≡ segment_numbers space.now }
{
    [
        u64::from(space.num_docs()),
        space.termdict().total().0,
        space.postings().total().0,
        space.positions().total().0,
        space.fast_fields().total().0,
        space.fieldnorms().total().0,
        space.store().total().0,
        space.deletes().0,
        space.total().0,
    ]
}

// Puts numbers behind a text, each behind a space.
fn push_numbers(alloc: Global, text: &mut String, numbers: &[u64]) -> Result<(), Memory>
    ensures { OnOk result
        (string_bytes text.new ≡ string_bytes text.old ++ numbers_text numbers.now) }
{
    for number in numbers {
        let word = format!(in alloc; " {number}")?;
        text.push_str(word.as_str())?;
    }
    Ok(())
}

// The line of a segment.
fn segment_line(alloc: Global, report: &SegmentReport) -> Result<String, Memory>
    ensures { IfOk result (λ line. string_bytes line ≡ segment_line report.now) }
{
    let id = report.id.uuid_string(alloc)?;
    let mut line = format!(in alloc; "segment {id}")?;
    let numbers = numbers_of(&report.space);
    push_numbers(alloc, &mut line, numbers.as_slice())?;
    Ok(line)
}

// Puts a line and its line feed behind a text.
fn push_line(text: &mut Vec<u8>, line: &str) -> Result<(), Memory>
    ensures { OnOk result (text.new.items ≡ text.old.items ++ line.now ++ 10 ∷ []) }
{
    text.extend_from_slice(line.as_bytes())?;
    text.push(b'\n')?;
    Ok(())
}

/// The lines of a report of these segments, with a line feed between two.
pub(crate) fn report_text(alloc: Global, reports: &[SegmentReport]) -> Result<Vec<u8>, Memory>
    ensures { IfOk result (λ text. text.items ≡ report_text reports.now) }
{
    let mut text = Vec::new(alloc);
    let mut sum = ByteCount(0);
    for report in reports {
        let line = segment_line(alloc, report)?;
        push_line(&mut text, line.as_str())?;
        sum = sum.plus(report.space.total());
    }
    let total = sum.0;
    let line = format!(in alloc; "total {total}")?;
    text.extend_from_slice(line.as_bytes())?;
    Ok(text)
}
