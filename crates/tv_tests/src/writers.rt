//! Counts of what is written.
ghost use Rattle.std.specs.Prelude.{◌≡◌, false};

use crate::compare::are_bytes;
use std::process::Abort;
use tv_base::{CountingWriter, IoError, TerminatingWrite};

// A writer in memory.
#[derive(Drop)]
struct Page {
    bytes: Vec<u8>,
    ended: bool,
}

impl TerminatingWrite for Page {
    ghost view = { λ p. record { taken = p.bytes.items; faults = 0; ended = p.ended } };

    ghost keeps = { Unit {0} };

    ghost stays = { λ _ _. Unit {0} };

    ghost flushed = { λ _ new. new.ended ≡ false };

    ghost sealed = { λ _ new bytes. new.bytes.items ≡ bytes };

    fn write_all(&mut self, bytes: &[u8]) -> Result<(), IoError> {
        self.bytes.extend_from_slice(bytes)?;
        Ok(())
    }

    fn flush(&mut self) -> Result<(), IoError> {
        Ok(())
    }

    fn terminate(&mut self) -> Result<(), IoError> {
        self.ended = true;
        Ok(())
    }
}

// Writes a page in two pieces, to its end.
fn writes_a_page<R: Abort, W: TerminatingWrite>(rt: &R, writer: &mut W)
    requires { (W.view writer.old).ended ≡ false }
{
    writer.write_all(b"abc").expect(rt, "memory");
    writer.write_all(b"de").expect(rt, "memory");
    writer.flush().expect(rt, "memory");
    writer.terminate().expect(rt, "memory");
}

#[test]
fn bytes_are_counted(rt: HostRuntime) {
    let page = Page {
        bytes: Vec::new(rt.alloc()),
        ended: false,
    };
    let mut writer = CountingWriter::wrap(page);
    writes_a_page(&rt, &mut writer);
    assert!(rt; writer.written_bytes() == 5);
    let page = writer.finish();
    are_bytes(&rt, page.bytes.as_slice(), b"abcde");
}
