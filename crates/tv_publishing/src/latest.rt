//! What handles find: the snapshot that was published last.
use left_right::Absorb;
use std::alloc::AllocError;
use tv_snapshots::snapshot::Snapshot;

/// How many snapshots were published, and the last of them.
#[derive(Drop)]
pub struct Latest {
    pub number: u64,
    pub last: Option<Snapshot>,
}

impl Absorb<Snapshot> for Latest {
    type State = (u64, Option<Snapshot>);

    ghost use Rattle.std.specs.Prelude.{Some, ◌+◌};

    ghost state = { λ s. (s.number, s.last) };

    ghost applied = { λ s o. (s.0 + 1, Some o) };

    fn absorb_first(&mut self, snapshot: &Snapshot, _other: &Latest) -> Result<(), AllocError> {
        if self.number == u64::MAX {
            return Err(AllocError);
        }
        let Ok(last) = snapshot.share() else {
            return Err(AllocError);
        };
        self.number += 1;
        self.last = Some(last);
        Ok(())
    }
}
