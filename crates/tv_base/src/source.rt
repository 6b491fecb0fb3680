//! Where a script comes from.
ghost use Rattle.std.specs.Prelude.{◌≡◌, ◌≤◌, ◌<◌, ◌↔◌, Some, true, length, take, min, IfOk, IfErr, OnErr, IsErr};
ghost use Rattle.tv_base.specs.Streams.{ReadsPiece, IsAtEnd, SourceView, SourceFaults};
ghost use Rattle.tv_base.specs.Causes.{IsDevice};
ghost use Rattle.tv_base.specs.Texts.{is_refused, after_refusal, after_read};

use crate::io::{IoFault, IoKind};
use std::marker::Model;

/// Where bytes come from.
pub trait Source {
    /// What is told of the source.
    ghost view: { Self → SourceView };

    /// Reads into the front of `into`, and answers how many bytes came. None come only at the end, or
    /// where `into` is empty.
    fn read(&mut self, into: &mut [u8]) -> Result<usize, IoFault>
        ensures count { IfOk result (λ n. n ≤ length into.old) }
        ensures bytes { IfOk result
            (λ n. ReadsPiece (take n into.new) (view self.old).left (view self.new).left) }
        ensures end { IfOk result
            (λ n. n ≡ 0 → 0 < length into.old → IsAtEnd (view self.old).left) }
        ensures faults { SourceFaults (view self.old) (view self.new) result };
}

/// A text in memory, some of whose reads are refused.
///
/// The calls of `read` have numbers, from 0 on. The number stops at `u64::MAX`, and that call is
/// never refused.
#[derive(Drop)]
pub struct TextSource {
    bytes: Vec<u8>,
    at: usize,
    fail_at: Vec<u64>,
    call: u64,
    faults: u64,
}

impl Model for TextSource {
    ghost use Rattle.std.specs.Prelude.{◌≤◌, drop, length};
    ghost use Rattle.tv_base.specs.Texts.{TextState};

    ghost Value = { TextState };

    ghost view = { λ s. record {
      left = drop s.at s.bytes.items;
      fail_at = s.fail_at.items;
      call = s.call;
      faults = s.faults;
    } };

    ghost invariant = { λ s. s.at ≤ length s.bytes.items };
}

impl TextSource {
    /// All of a text. Refused are exactly the calls whose numbers are in `fail_at`.
    pub fn new(bytes: Vec<u8>, fail_at: Vec<u64>) -> TextSource
        ensures { result ≡ record {
          left = bytes.items;
          fail_at = fail_at.items;
          call = 0;
          faults = 0;
        } }
    {
        TextSource {
            bytes,
            at: 0,
            fail_at,
            call: 0,
            faults: 0,
        }
    }

    /// How many reads were refused.
    pub fn faults(&self) -> u64
        ensures { result ≡ self.now.faults }
    {
        self.faults
    }
}

impl Source for TextSource {
    ghost view = { λ s. record { left = Some s.left; faults = s.faults } };

    fn read(&mut self, into: &mut [u8]) -> Result<usize, IoFault>
        ensures size { IfOk result (λ n. n ≡ min (length into.old) (length self.old.left)) }
        ensures piece { IfOk result (λ n. take n into.new ≡ take n self.old.left) }
        ensures took { IfOk result (λ n. self.new ≡ after_read n self.old) }
        ensures refused { IsErr result ↔ (is_refused self.old ≡ true) }
        ensures device { IfErr result IsDevice }
        ensures failed { OnErr result (self.new ≡ after_refusal self.old) }
    {
        let number = self.call;
        self.call = number.saturating_add(1);
        if number < u64::MAX && self.fail_at.contains(&number) {
            self.faults = self.faults.saturating_add(1);
            return Err(IoFault {
                kind: IoKind::Device,
                text: String::new(*self.bytes.allocator()),
            });
        }
        let (_, left) = self.bytes.as_slice().split_at(self.at);
        let n = into.len().min(left.len());
        let (piece, _) = left.split_at(n);
        into[..n].copy_from_slice(piece);
        self.at += n;
        Ok(n)
    }
}
