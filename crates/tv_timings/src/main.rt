//! Times what is done to the bytes of standard input: the word `checksum` takes their checksum, and `composite` opens
//! them as a composite file. It prints a number, which is the checksum or the length of the body of field 0, and the
//! nanoseconds of the fastest of some runs. Without a word it prints nothing, so that what it prints is the same each
//! time the gate runs it.
#![tactic(auto)]

ghost use Rattle.std.specs.Prelude.{◌≡◌};
ghost use Rattle.tv_formats.specs.Checksum.{crc32};

use std::alloc::Global;
use std::env;
use std::io::Read;
use std::process::ExitCode;
use std::time::{Clock, Instant};
use tv_base::{Field, FileSlice, OwnedBytes};
use tv_checksum::{Checksum, Crc32};
use tv_framing::CompositeFile;

// How often it is timed. The fastest counts.
const RUNS: u32 = 5;

// What is done to the bytes.
#[derive(Clone, Copy)]
enum Work {
    Checksum,
    Composite,
}

fn checksum(bytes: &[u8]) -> u32
    ensures { result ≡ crc32 bytes.now }
{
    let mut checksum = Crc32::start();
    checksum.update(bytes);
    checksum.finish()
}

// The length of the body of field 0.
fn first_body(alloc: Global, file: &FileSlice) -> anyhow::Result<u64> {
    let parts = CompositeFile::open(alloc, file)?;
    match parts.open_read(Field::from_field_id(0))? {
        Some(body) => Ok(body.len() as u64),
        None => anyhow::bail!("there is no field 0"),
    }
}

fn outcome(alloc: Global, work: Work, file: &FileSlice) -> anyhow::Result<u64> {
    match work {
        Work::Checksum => Ok(u64::from(checksum(file.read_bytes()?.as_slice()))),
        Work::Composite => first_body(alloc, file),
    }
}

// What comes of the work, and how many nanoseconds it takes.
fn time(
    rt: &impl Clock,
    alloc: Global,
    work: Work,
    file: &FileSlice,
) -> anyhow::Result<(u64, u128)> {
    let start = Instant::now(rt)?;
    let number = outcome(alloc, work, file)?;
    let took = start.elapsed(rt)?;
    Ok((number, took.as_nanos()))
}

// What comes of the work, and how many nanoseconds the fastest of some runs takes.
fn fastest(
    rt: &impl Clock,
    alloc: Global,
    work: Work,
    file: &FileSlice,
) -> anyhow::Result<(u64, u128)> {
    let (number, mut least) = time(rt, alloc, work, file)?;
    for _ in 1..RUNS {
        let (again, nanos) = time(rt, alloc, work, file)?;
        if again != number {
            anyhow::bail!("another number");
        }
        least = least.min(nanos);
    }
    Ok((number, least))
}

fn time_input(rt: &HostRuntime, work: Work) -> anyhow::Result<ExitCode> {
    let mut bytes = Vec::new(rt.alloc());
    rt.reader().read_to_end(&mut bytes)?;
    let file = FileSlice::new(OwnedBytes::new(bytes)?);
    let (number, nanos) = fastest(rt, rt.alloc(), work, &file)?;
    println!(rt; "{number} {nanos}")?;
    Ok(ExitCode::SUCCESS)
}

fn main(rt: HostRuntime) -> anyhow::Result<ExitCode> {
    let Some(word) = env::args(&rt)?.skip(1).next() else {
        return Ok(ExitCode::SUCCESS);
    };
    match word.as_str() {
        "checksum" => time_input(&rt, Work::Checksum),
        "composite" => time_input(&rt, Work::Composite),
        _ => anyhow::bail!("the words are `checksum` and `composite`"),
    }
}
