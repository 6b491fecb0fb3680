//! Lines that are told on to the directory's owner.
ghost use Rattle.std.specs.Prelude.{◌≡◌, ◌<◌, true, length};
ghost use Rattle.tv_formats.specs.Files.{has_no_feed};
ghost use Rattle.tv_device.specs.Images.{KeepsDisk};
ghost use Rattle.tv_device.specs.View.{OnlyTells};
ghost use Rattle.tv_device.specs.Calls.{DeviceFaults, MakesRoom, TellsLineTo};
ghost use Rattle.tv_managed.specs.Frames.{KeepsNames};

use crate::managed_directory::ManagedDirectory;
use tv_base::IoFault;
use tv_device::Outside;
use tv_formats::Memory;

impl<O: Outside> ManagedDirectory<O> {
    /// Makes room for a line of this length.
    pub fn ready(&mut self, len: usize) -> Result<(), Memory>
        ensures room { KeepsNames (MakesRoom O.told len result) O.view self.old self.new }
        ensures images { O.tells_images
            → KeepsDisk (O.disk self.old.0) (O.disk self.new.0) }
    {
        self.directory.ready(len)
    }

    /// Tells a line, in the room that was made. Takes no memory.
    pub fn tell(&mut self, line: &[u8]) -> Result<(), IoFault>
        requires room { length line.now < (O.view self.old.0).room }
        requires feed { has_no_feed line.now ≡ true }
        ensures tells { TellsLineTo O.told (O.view self.old.0) (O.view self.new.0) line.now result }
        ensures faults { DeviceFaults (O.view self.old.0) (O.view self.new.0) result }
        ensures frame { KeepsNames (OnlyTells O.told) O.view self.old self.new }
        ensures images { O.tells_images
            → KeepsDisk (O.disk self.old.0) (O.disk self.new.0) }
    {
        self.directory.tell(line)
    }
}
