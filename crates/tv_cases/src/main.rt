//! Runs cases: files of plain text that say what the program is given, and what must come of it.
//! `docs/CASES.md` says how they are written.
#![tactic(auto)]

mod case;
mod folder;
mod reading;
mod running;
mod texts;
mod trying;

use crate::folder::run_folder;
use std::env;
use std::process::ExitCode;

fn main(rt: HostRuntime) -> anyhow::Result<ExitCode> {
    match env::args(&rt)?.nth(1) {
        Some(folder) => run_folder(&rt, folder.as_str()),
        None => run_folder(&rt, "."),
    }
}
