//! A directory whose owner is also told lines.
ghost use Rattle.std.specs.Prelude.{◌≡◌, ◌<◌, true, length};
ghost use Rattle.tv_formats.specs.Files.{has_no_feed};
ghost use Rattle.tv_device.specs.View.{OnlyTells};
ghost use Rattle.tv_device.specs.Images.{KeepsDisk};
ghost use Rattle.tv_device.specs.Calls.{DeviceFaults, MakesRoom, TellsLineTo};

use crate::directory::Directory;
use tv_base::IoFault;
use tv_formats::Memory;

/// A directory, and who is told the answers.
pub trait Outside: Directory {
    /// Makes room for a line of this length.
    fn ready(&mut self, len: usize) -> Result<(), Memory>
        ensures room { MakesRoom Self.told len result (Self.view self.old) (Self.view self.new) }
        ensures images { Self.tells_images → KeepsDisk (Self.disk self.old) (Self.disk self.new) };

    /// Tells a line, to which a line feed is added, in the room that was made. Takes no memory.
    /// Where it is refused, a part of the line may have been told, without the line feed.
    fn tell(&mut self, line: &[u8]) -> Result<(), IoFault>
        requires room { length line.now < (Self.view self.old).room }
        requires feed { has_no_feed line.now ≡ true }
        ensures tells { TellsLineTo Self.told (Self.view self.old) (Self.view self.new)
            line.now result }
        ensures faults { DeviceFaults (Self.view self.old) (Self.view self.new) result }
        ensures frame { OnlyTells Self.told (Self.view self.old) (Self.view self.new) }
        ensures images { Self.tells_images → KeepsDisk (Self.disk self.old) (Self.disk self.new) };
}
