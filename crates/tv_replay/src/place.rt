//! Where a run of the program finds its schemas, scripts and folders, and where it says what it has to say.
ghost use Rattle.std.specs.Prelude.{◌≡◌, List, ℕ, None, Some, IsSome, IfErr, IfOk};
ghost use Rattle.tv_base.specs.Causes.{IoCause};
ghost use Rattle.tv_replay.specs.PlaceView.{PlaceTold, PlaceView, PlaceKept, OnlyLends, KeepsFolders};
ghost use Rattle.tv_replay.specs.PlaceView.{PlaceFaults, LendFaults, SayFaults, Lends, TakesBack, ScriptEnds, Says};

use tv_base::{IoError, IoFault, OpenDirectoryError, Source};
use tv_device::Outside;

/// What a run of the program stands in: schemas and scripts by path, folders, and somebody who is
/// told what the run says.
///
/// Every refusal but want of memory comes only where the count of faults rose.
pub trait Place {
    /// What a folder holds.
    type Out: Outside;

    /// Where a script comes from.
    type Text: Source;

    /// What is told: the schemas, scripts and folders, and what was said.
    ghost told: { PlaceTold };

    /// What is said of the place.
    ghost view: { Self → PlaceView Self.Out };

    /// Whether a path may be asked for a schema, for a script, for a folder. No call changes it.
    ghost is_schema_path: { List ℕ → Type 0 };

    ghost is_script_path: { List ℕ → Type 0 };

    ghost is_folder_path: { List ℕ → Type 0 };

    /// The schema of a path.
    fn schema(&mut self, path: &str) -> Result<Vec<u8>, IoError>
        requires { is_schema_path path.now }
        ensures bytes { told.content
            → IfOk result (λ bytes. (view self.old).schemas path.now ≡ Some bytes.items) }
        // Where schemas are told, one is refused only where there is none.
        ensures absent { told.content
            → IfErr result (IoCause ((view self.old).schemas path.now ≡ None) (Unit {0})) }
        ensures faults { PlaceFaults (view self.old) (view self.new) result }
        ensures frame { PlaceKept told (view self.old) (view self.new) };

    /// The script of a path. None of its reads has been refused yet.
    fn script(&mut self, path: &str) -> Result<Self::Text, IoError>
        requires { is_script_path path.now }
        ensures text { told.content
            → IfOk result (λ text. (view self.old).scripts path.now ≡ (Self.Text.view text).left) }
        ensures fresh { IfOk result (λ text. (Self.Text.view text).faults ≡ 0) }
        ensures faults { PlaceFaults (view self.old) (view self.new) result }
        ensures frame { PlaceKept told (view self.old) (view self.new) };

    /// Lends the directory of a folder, where none is lent.
    fn lend(&mut self, folder: &str) -> Result<Self::Out, OpenDirectoryError>
        requires path { is_folder_path folder.now }
        requires free { (view self.old).lent ≡ None }
        ensures lends { Lends told (view self.old) (view self.new) folder.now result }
        ensures faults { LendFaults (view self.old) (view self.new) result }
        ensures frame { OnlyLends told (view self.old) (view self.new) };

    /// Takes a script back. The count of faults rises exactly where a read of it was refused.
    /// Takes no memory.
    fn end_script(&mut self, text: Self::Text)
        ensures faults { ScriptEnds (view self.old) (view self.new) (Self.Text.view text) }
        ensures frame { PlaceKept told (view self.old) (view self.new) };

    /// Takes the directory back that was lent. Takes no memory.
    fn give_back(&mut self, outside: Self::Out)
        requires { IsSome (view self.old).lent }
        ensures takes_back { TakesBack told (view self.old) (view self.new) outside }
        ensures faults { (view self.new).faults ≡ (view self.old).faults }
        ensures frame { OnlyLends told (view self.old) (view self.new) };

    /// Says a line, to which a line feed is added. Where it is refused, a part of the line may have
    /// been said, without the line feed. A refusal that was counted before is counted still. Takes
    /// no memory.
    fn say(&mut self, line: &[u8]) -> Result<(), IoFault>
        ensures says { Says told (view self.old) (view self.new) line.now result }
        ensures faults { SayFaults (view self.old) (view self.new) result }
        ensures frame { KeepsFolders told (view self.old) (view self.new) };
}
