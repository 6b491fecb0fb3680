//! A directory in memory, for tests.
ghost use Rattle.std.specs.Prelude.{◌≡◌, [], true, string_bytes, IfOk};
ghost use Rattle.std.specs.List.{AllByRecursion};
ghost use Rattle.tv_formats.specs.Files.{Reads, Same};
ghost use Rattle.tv_formats.specs.Names.{is_file_name};
ghost use Rattle.tv_base.specs.Causes.{OpenReadCause};
ghost use Rattle.tv_directory.specs.Bench.{device_in, disk_in, view_in, IsAtRest, IsNewBench, IsSoundWhere, Untouched};
ghost use Rattle.tv_directory.specs.Device.{after_fault};
ghost use Rattle.tv_device.specs.StoredFiles.{AreSealed, named, last_of, reads_of};
ghost use Rattle.tv_directory.specs.Pieces.{bytes_heard};

use crate::bench_device::Device;
use crate::bench_record::Record;
use crate::bench_told::Told;
use std::alloc::Global;
use tv_base::OpenReadError;
use tv_device::{Directory, Files, RamDirectory, WatchCall};
use tv_formats::Memory;

/// A directory in memory, which is also told lines. Its device refuses exactly the calls that
/// `fail_at` lists. `C` is who may watch it.
#[derive(Drop)]
pub struct Bench<C> {
    pub(crate) alloc: Global,
    pub(crate) ram: RamDirectory<C>,
    pub(crate) told: Told,
    pub(crate) recorded: Record,
    pub(crate) device: Device,
}

impl<C: WatchCall> Bench<C> {
    /// A directory with these files, sealed and settled: a crash leaves just them. Where a name stands in
    /// several pairs, the last one counts. The clock and the counts are 0, no writer was opened, nothing
    /// was told, and no call is refused.
    pub fn new(alloc: Global, files: Vec<(String, Vec<u8>)>) -> Result<Bench<C>, Memory>
        requires { AllByRecursion (λ file. is_file_name (string_bytes file.0) ≡ true) files.items }
        ensures new { IfOk result (λ bench.
            IsNewBench (last_of (named files.items)) (⟦<Bench<C> as Directory>⟧.view bench)) }
        ensures rests { IfOk result (λ bench.
            IsAtRest (last_of (named files.items)) (disk_in bench)) }
        ensures sound { IfOk result (λ bench. IsSoundWhere (last_of (named files.items))
            (disk_in bench) (⟦<Bench<C> as Directory>⟧.view bench).locks) }
        ensures device { IfOk result (λ bench.
            device_in bench ≡ record { fail_at = []; call = 0; faults = 0; refusals = 0 }) }
    {
        Ok(Bench::with_files(alloc, Files::sealed(alloc, files)?))
    }

    // The same of files that are sealed.
    pub(crate) fn with_files(alloc: Global, files: Files) -> Bench<C>
        ensures new { (image : Reads) → Same image (reads_of files.map.entries)
            → files.last ≡ 0 → IsNewBench image (view_in C.calls result) }
        ensures rests { (image : Reads) → Same image (reads_of files.map.entries)
            → AreSealed files.map.entries → IsAtRest image (disk_in result) }
        ensures device { device_in result
            ≡ record { fail_at = []; call = 0; faults = 0; refusals = 0 } }
    {
        Bench {
            alloc,
            ram: RamDirectory::with_files(alloc, files),
            told: Told::new(alloc),
            recorded: Record::new(alloc),
            device: Device::new(alloc),
        }
    }

    /// From now on the device refuses exactly the calls with these numbers. The calls that can answer
    /// a fault of the device are numbered from 0 on, whatever they answer: `tell`, and those of
    /// `Directory` but `release`, `watch`, `unwatch` and `deliver`. The number stops at `u64::MAX`, and
    /// that call is never refused.
    pub fn fail_at(&mut self, calls: Vec<u64>)
        ensures device { device_in self.new ≡ record (device_in self.old)
            { fail_at = calls.items } }
        ensures others { Untouched self.old self.new }
    {
        self.device.fail_at(calls);
    }

    /// The clock: how many calls were recorded.
    pub fn moment(&self) -> u64
        ensures { result ≡ (⟦<Bench<C> as Directory>⟧.view self.now).moment }
    {
        self.recorded.moment()
    }

    /// How many calls other than deletes the device has refused.
    pub fn faults(&self) -> u64
        ensures { result ≡ (⟦<Bench<C> as Directory>⟧.view self.now).faults }
    {
        self.device.faults()
    }

    /// How many deletes the device has refused.
    pub fn refusals(&self) -> u64
        ensures { result ≡ (⟦<Bench<C> as Directory>⟧.view self.now).refusals }
    {
        self.device.refusals()
    }

    /// All that was told, one piece after the other.
    pub fn heard_lines(&self) -> Result<Vec<u8>, Memory>
        ensures { IfOk result (λ bytes.
            bytes.items ≡ bytes_heard (⟦<Bench<C> as Directory>⟧.view self.now).heard) }
    {
        self.told.bytes()
    }

    // The refusal of a call that reads this name. It is counted once there is memory for its text.
    pub(crate) fn refused_read(&mut self, name: &str) -> OpenReadError
        ensures cause { OpenReadCause name.now ⊥
            (device_in self.new ≡ after_fault (device_in self.old))
            (device_in self.new ≡ device_in self.old) result }
        ensures others { self.new ≡ record self.old { device = self.new.device } }
    {
        let Ok(filepath) = String::from_str(self.alloc, name) else {
            return OpenReadError::Memory;
        };
        OpenReadError::IoError {
            io_error: self.device.fault(),
            filepath,
        }
    }
}
