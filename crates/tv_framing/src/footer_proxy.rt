//! Writes a file that ends with a footer.
ghost use Rattle.std.specs.Prelude.{◌≡◌, [], false, OnOk};
ghost use Rattle.tv_base.specs.Writers.{Ends, TakesAll, TakesNone, WriteFaults};
ghost use Rattle.tv_framing.specs.Proxies.{AddsUp, EndsWithFooter, ProxyStays, SealedWithFooter, SealsProxy, SumsUp, seen};

use crate::footer::Footer;
use std::alloc::Global;
use std::marker::Model;
use tv_base::{IoError, TerminatingWrite};
use tv_checksum::Checksum;

/// Writes a body, and behind it a footer with the body's checksum.
#[derive(Drop)]
pub struct FooterProxy<W: TerminatingWrite, C: Checksum> {
    writer: W,
    // Nothing once the end was told.
    checksum: Option<C>,
    footer_len: usize,
    alloc: Global,
}

impl<W: TerminatingWrite, C: Checksum> Model for FooterProxy<W, C> {
    ghost use Rattle.std.specs.Prelude.{◌≡◌, IfSome};
    ghost use Rattle.tv_framing.specs.Proxies.{Proxied};

    ghost Value = { Proxied W C };

    ghost view = { λ p. record { writer = p.writer; sum = p.checksum; footer_len = p.footer_len } };

    ghost invariant = { λ p. IfSome p.checksum (λ _. p.footer_len ≡ 0) };
}

impl<W: TerminatingWrite, C: Checksum> FooterProxy<W, C> {
    /// Writes to this writer, behind what it has taken so far. Takes no memory.
    pub fn new(alloc: Global, writer: W) -> FooterProxy<W, C>
        requires going { (W.view writer).ended ≡ false }
        ensures writer { result.writer ≡ writer }
        ensures sum { SumsUp C.has_taken result.sum [] }
        ensures none { result.footer_len ≡ 0 }
    {
        FooterProxy {
            writer,
            checksum: Some(C::start()),
            footer_len: 0,
            alloc,
        }
    }
}

impl<W: TerminatingWrite, C: Checksum + Drop> TerminatingWrite for FooterProxy<W, C> {
    ghost view = { seen W.view };

    ghost keeps = { W.keeps };

    ghost stays = { ProxyStays W.TerminatingWrite C.Checksum };

    ghost flushed = { λ old new. W.flushed old.writer new.writer };

    ghost sealed = { SealedWithFooter W.TerminatingWrite C.Checksum };

    fn write_all(&mut self, bytes: &[u8]) -> Result<(), IoError>
        requires going { (seen W.view self.old).ended ≡ false }
        ensures takes { TakesAll (seen W.view self.old) (seen W.view self.new) bytes.now result }
        ensures faults { WriteFaults (seen W.view self.old) (seen W.view self.new) result }
        ensures stays { ProxyStays W.TerminatingWrite C.Checksum self.old self.new }
        ensures below { TakesAll (W.view self.old.writer) (W.view self.new.writer)
            bytes.now result }
        ensures sums { AddsUp C.Checksum self.old.sum self.new.sum bytes.now result }
    {
        let Some(checksum) = &mut self.checksum else {
            unreachable!()
        };
        self.writer.write_all(bytes)?;
        checksum.update(bytes);
        Ok(())
    }

    fn flush(&mut self) -> Result<(), IoError>
        requires going { (seen W.view self.old).ended ≡ false }
        ensures takes { TakesNone (seen W.view self.old) (seen W.view self.new) result }
        ensures flushed { OnOk result (W.flushed self.old.writer self.new.writer) }
        ensures faults { WriteFaults (seen W.view self.old) (seen W.view self.new) result }
        ensures stays { ProxyStays W.TerminatingWrite C.Checksum self.old self.new }
        ensures sum { self.new.sum ≡ self.old.sum }
    {
        self.writer.flush()
    }

    /// Writes the footer, and tells the end.
    fn terminate(&mut self) -> Result<(), IoError>
        requires going { (seen W.view self.old).ended ≡ false }
        ensures ends { Ends W.keeps (seen W.view self.old) (seen W.view self.new) result }
        ensures sealed { OnOk result (SealsProxy W.TerminatingWrite C.Checksum self.old self.new) }
        ensures stays { ProxyStays W.TerminatingWrite C.Checksum self.old self.new }
        ensures footer { EndsWithFooter W.TerminatingWrite C.Checksum self.old self.new result }
    {
        let Some(checksum) = self.checksum.take() else {
            unreachable!()
        };
        let footer = Footer::new(checksum.finish()).to_bytes(self.alloc)?;
        self.writer.write_all(footer.as_slice())?;
        self.footer_len = footer.len();
        self.writer.terminate()
    }
}
