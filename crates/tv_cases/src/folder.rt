//! The files of cases of a folder.
use crate::case::Case;
use crate::reading::cases_of;
use crate::trying::{Trouble, check_case};
use std::alloc::Global;
use std::fs;
use std::process::ExitCode;
use std::rt::Files;

// What the files of a folder hold: cases that go as they say, or ones that are wrong on purpose.
#[derive(Clone, Copy, PartialEq, Eq)]
enum Kind {
    Right,
    Wrong,
}

// How many cases went as they say, how many didn't, and how many files couldn't be read.
#[derive(Clone, Copy)]
struct Count {
    well: u64,
    ill: u64,
    unread: u64,
}

// The names of the files with cases of a folder, in order.
fn names(rt: &HostRuntime, folder: &str) -> anyhow::Result<Vec<String>> {
    let mut names = Vec::new(rt.alloc());
    for entry in fs::read_dir(rt, folder)? {
        push_name(rt.alloc(), &mut names, entry?.file_name())?;
    }
    names.sort()?;
    Ok(names)
}

// Adds the name of a file, if it is one with cases.
fn push_name(alloc: Global, names: &mut Vec<String>, name: &str) -> anyhow::Result<()> {
    if name.ends_with(".case") {
        names.push(String::from_str(alloc, name)?)?;
    }
    Ok(())
}

// Tries a case, and prints how it went. Whether it went well.
fn try_case(rt: &HostRuntime, file: &str, case: &Case) -> anyhow::Result<bool> {
    let name = case.name.as_str();
    match check_case(rt.alloc(), case) {
        Ok(()) => {
            println!(rt; "{file}: {name}: ok")?;
            Ok(true)
        }
        Err(Trouble::Differs(differs)) => {
            println!(rt; "{file}:{}: {name}: {}", differs.at, differs.text)?;
            Ok(false)
        }
        Err(Trouble::Untried(error)) => {
            println!(rt; "{file}:{}: {name}: not tried: {error}", case.at)?;
            Ok(false)
        }
    }
}

// Tries the cases of a file. A wrong one counts once for all its rounds, since one of them has to differ.
fn try_cases(
    rt: &HostRuntime,
    file: &str,
    cases: &[Case],
    kind: Kind,
    count: &mut Count,
) -> anyhow::Result<()> {
    let mut is_well = true;
    for case in cases {
        is_well &= try_case(rt, file, case)?;
        if kind == Kind::Right || case.is_last_round {
            count.add(is_well);
            is_well = true;
        }
    }
    Ok(())
}

impl Count {
    // Counts a case.
    fn add(&mut self, is_well: bool) {
        if is_well {
            self.well = self.well.saturating_add(1);
        } else {
            self.ill = self.ill.saturating_add(1);
        }
    }
}

// The cases of a file.
fn read_cases(rt: &HostRuntime, folder: &str, file: &str) -> anyhow::Result<Vec<Case>> {
    let path = format!(in rt.alloc(); "{folder}/{file}")?;
    let text = fs::read_to_string(rt, path.as_str())?;
    cases_of(rt.alloc(), text.as_str())
}

// Reads a file, and tries its cases.
fn try_file(
    rt: &HostRuntime,
    folder: &str,
    file: &str,
    kind: Kind,
    count: &mut Count,
) -> anyhow::Result<()> {
    match read_cases(rt, folder, file) {
        Ok(cases) => try_cases(rt, file, cases.as_slice(), kind, count),
        Err(error) => {
            println!(rt; "{file}:{error}")?;
            count.unread = count.unread.saturating_add(1);
            Ok(())
        }
    }
}

// Tries the cases of all files of a folder.
fn try_files(rt: &HostRuntime, folder: &str, kind: Kind) -> anyhow::Result<Count> {
    let mut count = Count {
        well: 0,
        ill: 0,
        unread: 0,
    };
    for name in names(rt, folder)? {
        try_file(rt, folder, name.as_str(), kind, &mut count)?;
    }
    Ok(count)
}

// Tries the cases of a folder, and prints the counts. Whether each went as it says.
fn are_right(rt: &HostRuntime, folder: &str) -> anyhow::Result<bool> {
    let Count { well, ill, unread } = try_files(rt, folder, Kind::Right)?;
    println!(rt; "{well} cases went as they say, {ill} did not; {unread} files are no cases")?;
    Ok(ill == 0 && unread == 0)
}

// Tries the wrong cases of a folder, where it has some, and prints the counts. Whether none went as it says.
fn are_wrong(rt: &HostRuntime, folder: &str) -> anyhow::Result<bool> {
    let folder = format!(in rt.alloc(); "{folder}/wrong")?;
    if fs::exists(rt, folder.as_str())? {
        are_wrong_in(rt, folder.as_str())
    } else {
        Ok(true)
    }
}

// Tries the wrong cases of this folder, and prints the counts. Whether none went as it says.
fn are_wrong_in(rt: &HostRuntime, folder: &str) -> anyhow::Result<bool> {
    let Count { well, ill, unread } = try_files(rt, folder, Kind::Wrong)?;
    println!(rt;
        "{ill} wrong cases did not go as they say, {well} did; {unread} wrong files are no cases"
    )?;
    Ok(well == 0)
}

/// Runs the cases of a folder: of its files whose names end in `.case`, in the order of their names, and then
/// those of the folder `wrong` in it, which are wrong on purpose. The status is a success only where each
/// case went as it says, but none of the wrong ones.
pub(crate) fn run_folder(rt: &HostRuntime, folder: &str) -> anyhow::Result<ExitCode> {
    let are_right = are_right(rt, folder)?;
    let are_wrong = are_wrong(rt, folder)?;
    Ok(if are_right && are_wrong {
        ExitCode::SUCCESS
    } else {
        ExitCode::FAILURE
    })
}
