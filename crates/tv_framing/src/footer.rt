//! The footer of a file.
ghost use Rattle.std.specs.Prelude.{◌≡◌, ◌≤◌, ℕ, false, IfOk, IfErr, MatchResult, OnOk, length, take};
ghost use Rattle.tv_formats.specs.Footer.{IsOtherFormat, IsReadFormat, footer};
ghost use Rattle.tv_base.specs.Versions.{library_version};
ghost use Rattle.tv_base.specs.Writers.{TakesAll, WriteFaults};
ghost use Rattle.tv_framing.specs.Faults.{OfFault};
ghost use Rattle.tv_framing.specs.declared.footer.Footer.{Footer};
ghost use Rattle.tv_framing.specs.Footers.{IsFramedAs, IsNotFramed, Refuses, footer_text, own_footer};
ghost use Rattle.tv_framing.specs.Sealing.{Steps};

use crate::faults::refusal;
use crate::footer_end::{FOOTER_MAGIC_NUMBER, json_range};
use crate::footer_json::{read_footer, write_json};
use std::alloc::Global;
use tv_base::{
    FileSlice, INDEX_FORMAT_OLDEST_SUPPORTED_VERSION, INDEX_FORMAT_VERSION, Incompatibility,
    IoError, IoKind, Memory, TerminatingWrite, Version, version,
};

/// What stands behind the body of each sealed file: the version of the library that wrote it, and the
/// CRC-32 of the body.
#[derive(Clone, Copy, Debug, PartialEq, Eq)]
pub struct Footer {
    /// The library that wrote the file, and the file's format.
    pub version: Version,
    /// The CRC-32 (ISO-HDLC) of the body, as it was written: a read doesn't compare it.
    pub crc: u32,
}

impl Footer {
    /// The footer of this library for a body with this checksum.
    pub fn new(crc: u32) -> Footer
        ensures footer { result ≡ own_footer crc }
    {
        Footer {
            version: version(),
            crc,
        }
    }

    /// The checksum of the body.
    pub fn crc(&self) -> u32
        ensures crc { result ≡ self.now.crc }
    {
        self.crc
    }

    /// The footer's bytes: its JSON, the length of that, and the magic number.
    pub fn to_bytes(&self, alloc: Global) -> Result<Vec<u8>, Memory>
        ensures bytes { IfOk result (λ bytes. bytes.items ≡ footer_text self.now) }
        ensures own { (crc : ℕ) → self.now ≡ own_footer crc
            → IfOk result (λ bytes. bytes.items ≡ footer crc) }
    {
        let mut bytes = write_json(alloc, self)?;
        let Ok(len) = u32::try_from(bytes.len()) else {
            return Err(Memory);
        };
        bytes.extend_from_slice(&len.to_le_bytes())?;
        bytes.extend_from_slice(&FOOTER_MAGIC_NUMBER.to_le_bytes())?;
        Ok(bytes)
    }

    /// Writes the footer behind what was written. Where memory is wanted, nothing is written.
    pub fn append_footer<W: TerminatingWrite>(
        &self,
        alloc: Global,
        write: &mut W,
    ) -> Result<(), IoError>
        requires going { (W.view write.old).ended ≡ false }
        ensures takes { TakesAll (W.view write.old) (W.view write.new)
            (footer_text self.now) result }
        ensures faults { WriteFaults (W.view write.old) (W.view write.new) result }
        ensures stays { Steps W.stays write.old write.new }
    {
        let bytes = self.to_bytes(alloc)?;
        write.write_all(bytes.as_slice())
    }

    /// The footer of a file, and the body before it, whatever the checksum is. The file is refused
    /// where it ends in no footer, for the first reason that holds.
    pub fn extract_footer(alloc: Global, file: FileSlice) -> Result<(Footer, FileSlice), IoError>
        ensures ok { IfOk result (λ found. IsFramedAs file found.0 found.1) }
        ensures err { IfErr result (OfFault (Refuses file)) }
        ensures outside { IfErr result (OfFault (λ _. IsNotFramed file)) }
    {
        framed(alloc, &file)
    }

    /// Whether files of this footer's version can be read. Takes no memory.
    pub fn is_compatible(&self) -> Result<(), Incompatibility>
        ensures ok { OnOk result (IsReadFormat self.now.version.index_format_version) }
        ensures err { IfErr result (λ e.
            e ≡ Incompatibility.IndexMismatch library_version self.now.version) }
        ensures outside { IfErr result (λ _. IsOtherFormat self.now.version.index_format_version) }
    {
        let format = self.version.index_format_version;
        if format < INDEX_FORMAT_OLDEST_SUPPORTED_VERSION || format > INDEX_FORMAT_VERSION {
            return Err(Incompatibility::IndexMismatch {
                library_version: version(),
                index_version: self.version,
            });
        }
        Ok(())
    }
}

// The footer of a file, and the body before it.
fn framed(alloc: Global, file: &FileSlice) -> Result<(Footer, FileSlice), IoError>
    ensures { MatchResult result (λ found. IsFramedAs file.now found.0 found.1)
        (OfFault (Refuses file.now)) }
{
    let bytes = file.read_bytes()?;
    let (footer, start) = footer_in(alloc, bytes.as_slice())?;
    Ok((footer, file.slice_to(start)?))
}

// The footer with which the bytes end, and how many bytes stand before it.
fn footer_in(alloc: Global, bytes: &[u8]) -> Result<(Footer, usize), IoError>
    ensures { MatchResult result (λ found. (found.1 ≤ length bytes.now)
        × IsFramedAs bytes.now found.0 (take found.1 bytes.now)) (OfFault (Refuses bytes.now)) }
{
    let range = json_range(alloc, bytes)?;
    let start = range.start;
    match read_footer(alloc, &bytes[range])? {
        Some(footer) => Ok((footer, start)),
        None => Err(refusal(
            alloc,
            IoKind::InvalidData,
            "Footer is not of the stated form.",
        )),
    }
}
