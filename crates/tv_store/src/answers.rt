//! Answers, and the room that is made for them before the device is asked.
ghost use Rattle.std.specs.Prelude.{◌≡◌, ◌<◌, length, IfOk, OnOk};
ghost use Rattle.tv_device.specs.Images.{KeepsDisk};
ghost use Rattle.tv_store.specs.Stays.{AsksQuietly, AsksOrFails};

use crate::index_store::IndexStore;
use tv_base::TantivyError;
use tv_device::Outside;
use tv_formats::Memory;
use tv_machine::Answer;

impl<O: Outside> IndexStore<O> {
    // An answer in room that is made for it.
    pub(crate) fn ready(&mut self, answer: Answer) -> Result<Answer, Memory>
        ensures answer { IfOk result (λ ready. ready ≡ answer) }
        ensures room { OnOk result (length answer < (O.view self.new.outside).room) }
        ensures asks { AsksQuietly O.Directory self.old self.new }
        ensures images { O.tells_images
            → KeepsDisk (O.disk self.old.outside) (O.disk self.new.outside) }
    {
        self.files.ready(answer.as_slice().len())?;
        Ok(answer)
    }

    // The answer to an event that asks nothing more of the directory, in room that is made for it.
    pub(crate) fn told(&mut self, answer: Answer) -> Result<Answer, TantivyError>
        ensures answer { IfOk result (λ told. told ≡ answer) }
        ensures room { IfOk result (λ answer. length answer < (O.view self.new.outside).room) }
        ensures quiet { (O.view self.new.outside).faults ≡ (O.view self.old.outside).faults }
        ensures asks { AsksOrFails O.Directory self.old self.new result }
        ensures images { O.tells_images
            → KeepsDisk (O.disk self.old.outside) (O.disk self.new.outside) }
    {
        let ready = self.ready(answer)?;
        Ok(ready)
    }
}
