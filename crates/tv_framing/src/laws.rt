//! Laws of files. Each function makes the calls of which it speaks, or none; its contract is the law.
ghost use Rattle.std.specs.Prelude.{◌≡◌, ◌≢◌, ◌≤◌, ◌<◌, ◌+◌, ◌++◌, ◌^◌, List, ℕ, false, length};
ghost use Rattle.std.specs.Prelude.{IfErr, IfOk, OnOk};
ghost use Rattle.std.specs.Ordering.{nat_cmp, ordering_then};
ghost use Rattle.tv_formats.specs.Footer.{footer, footer_magic, four_bytes, stated};
ghost use Rattle.tv_framing.specs.declared.footer.Footer.{Footer};
ghost use Rattle.tv_framing.specs.Composite.{AreDistinct, addresses};
ghost use Rattle.tv_framing.specs.Faults.{OfFault};
ghost use Rattle.tv_framing.specs.Footers.{HasFittingNumbers, HasOtherMagic, IsFramedAs};
ghost use Rattle.tv_framing.specs.Footers.{footer_text, last_four, own_footer};
ghost use Rattle.tv_framing.specs.Proxies.{SumsUp, seen};

use crate::address::FileAddr;
use crate::composite_file::CompositeFile;
use crate::footer::Footer;
use crate::footer_proxy::FooterProxy;
use std::alloc::Global;
use std::cmp::Ordering;
use tv_base::{FileSlice, IoError, Memory, TerminatingWrite};
use tv_checksum::Checksum;

/// A footer that is written behind a body is read back, and so is the body: any footer, and the one
/// with which a sealed file ends.
pub fn footers_are_read_back()
    ensures framed { (footer : Footer) (body : List ℕ) → HasFittingNumbers footer
        → IsFramedAs (body ++ footer_text footer) footer body }
    ensures sealed { (crc : ℕ) (body : List ℕ) → crc < 2 ^ 32
        → IsFramedAs (body ++ footer crc) (own_footer crc) body }
{}

/// A footer states how long its JSON is: that, and the eight bytes behind it, are the whole footer.
pub fn states_its_length(alloc: Global, footer: &Footer) -> Result<Vec<u8>, Memory>
    ensures { HasFittingNumbers footer.now
        → IfOk result (λ bytes. stated bytes.items + 8 ≡ length bytes.items) }
{
    footer.to_bytes(alloc)
}

/// A file that doesn't end in the number by which a footer is known is refused for just that,
/// whatever length it states.
pub fn looks_at_the_magic_number_first(
    alloc: Global,
    file: FileSlice,
) -> Result<(Footer, FileSlice), IoError>
    ensures { 8 ≤ length file → last_four file ≢ four_bytes footer_magic
        → IfErr result (OfFault (HasOtherMagic file)) }
{
    Footer::extract_footer(alloc, file)
}

/// What is written through a proxy is sealed: its bytes, and behind them the footer with their
/// checksum, are what the writer below was given.
pub fn seals_what_is_written<W: TerminatingWrite + Drop, C: Checksum + Drop>(
    alloc: Global,
    writer: W,
    bytes: &[u8],
) -> Result<FooterProxy<W, C>, IoError>
    requires going { (W.view writer).ended ≡ false }
    ensures { W.keeps → IfOk result (λ proxy. (W.view proxy.writer).taken
        ≡ (W.view writer).taken ++ (bytes.now ++ footer (C.checksum bytes.now))) }
{
    let mut proxy = FooterProxy::new(alloc, writer);
    proxy.write_all(bytes)?;
    proxy.terminate()?;
    Ok(proxy)
}

/// A write for which memory was wanted can be made again: the checksum is that of the bytes that
/// were written, each of them once.
pub fn sums_up_what_is_written<W: TerminatingWrite, C: Checksum + Drop>(
    proxy: &mut FooterProxy<W, C>,
    bytes: &[u8],
) -> Result<(), IoError>
    requires going { (seen W.view proxy.old).ended ≡ false }
    ensures { (body : List ℕ) → SumsUp C.has_taken proxy.old.sum body
        → OnOk result (SumsUp C.has_taken proxy.new.sum (body ++ bytes.now)) }
{
    match proxy.write_all(bytes) {
        Err(IoError::Memory) => proxy.write_all(bytes),
        answer => answer,
    }
}

/// A composite file has one body under each address.
pub fn opens_no_address_twice(alloc: Global, file: &FileSlice) -> Result<CompositeFile, IoError>
    ensures { IfOk result (λ parts. AreDistinct (addresses parts)) }
{
    CompositeFile::open(alloc, file)
}

/// Addresses are in order of their fields, and those of one field in order of their indexes.
pub fn orders_addresses(one: &FileAddr, other: &FileAddr) -> Ordering
    ensures { result ≡ ordering_then (nat_cmp one.now.field other.now.field)
        (nat_cmp one.now.idx other.now.idx) }
{
    one.cmp(other)
}
