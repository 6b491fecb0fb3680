//! Directories in memory which nobody watches, without files, and one whose device refuses calls.
ghost use Rattle.std.specs.Prelude.{◌≡◌, true, string_bytes};
ghost use Rattle.std.specs.List.{AllByRecursion};
ghost use Rattle.tv_formats.specs.Names.{is_file_name};

use std::alloc::Global;
use std::process::Abort;
use tv_base::Memory;
use tv_directory::{Bench, Directory, NoWatch, RamDirectory};

pub(crate) type TestRam = RamDirectory<NoWatch>;

pub(crate) type TestBench = Bench<NoWatch>;

/// A directory that can be made without files.
pub(crate) trait Empty: Directory + Drop {
    fn empty(alloc: Global) -> Result<Self, Memory>;

    /// Who watches it, and does nothing.
    fn nobody() -> Self::Callback;
}

impl Empty for TestRam {
    fn empty(alloc: Global) -> Result<TestRam, Memory> {
        Ok(RamDirectory::create(alloc))
    }

    fn nobody() -> NoWatch {
        NoWatch
    }
}

impl Empty for TestBench {
    fn empty(alloc: Global) -> Result<TestBench, Memory> {
        Bench::new(alloc, Vec::new(alloc))
    }

    fn nobody() -> NoWatch {
        NoWatch
    }
}

/// A directory with these files, whose device refuses the calls with these numbers.
pub(crate) fn refusing<R: Abort>(
    rt: &R,
    alloc: Global,
    files: Vec<(String, Vec<u8>)>,
    calls: &[u64],
) -> TestBench
    requires { AllByRecursion (λ file. is_file_name (string_bytes file.0) ≡ true) files.items }
{
    let mut bench: TestBench = Bench::new(alloc, files).expect(rt, "memory");
    bench.fail_at(Vec::from_slice(alloc, calls).expect(rt, "memory"));
    bench
}
