//! The program `tv`: replays a script of events over the directory of an index, or one that it
//! generates, and says how much space the files of an index take.
#![tactic(auto)]

use std::io::ErrorKind;
use std::process::ExitCode;
use std::{env, io};
use tv_files::StdinSource;
use tv_replay::{FolderPlace, run};

// The status after an error, and the one where memory was wanted.
const FAILED: u8 = 1;

const WANT_OF_MEMORY: u8 = 3;

// The words of the command line, without the name of the program. None are given where one of them
// isn't UTF-8, since no command has such a word.
fn words(rt: &HostRuntime) -> io::Result<Vec<String>> {
    let mut words = Vec::new(rt.alloc());
    let args = match env::args(rt) {
        Ok(args) => args,
        Err(error) if error.kind() == ErrorKind::InvalidData => return Ok(words),
        Err(error) => return Err(error),
    };
    for word in args.skip(1) {
        words.push(word)?;
    }
    Ok(words)
}

// Does what the words of the command line say, over the folders of the file system.
fn run_words(rt: &HostRuntime) -> io::Result<u8> {
    let words = words(rt)?;
    let Ok(mut place) = FolderPlace::new(rt.clone()?, rt.alloc()) else {
        return Ok(WANT_OF_MEMORY);
    };
    let mut script = StdinSource::new(rt, rt.alloc());
    Ok(run(rt.alloc(), words.as_slice(), &mut place, &mut script))
}

fn main(rt: HostRuntime) -> ExitCode {
    match run_words(&rt) {
        Ok(status) => ExitCode::from(status),
        Err(error) if error.kind() == ErrorKind::OutOfMemory => ExitCode::from(WANT_OF_MEMORY),
        Err(_) => ExitCode::from(FAILED),
    }
}
