//! Cases: what is run, over which start, and what must come of it.
use std::alloc::Global;

/// Which locks are held.
#[derive(Clone, Copy, PartialEq, Eq)]
pub(crate) struct Locks {
    pub(crate) writer: bool,
    pub(crate) meta: bool,
}

/// No lock.
pub(crate) const NO_LOCKS: Locks = Locks {
    writer: false,
    meta: false,
};

/// What a case needs of whoever runs it: a device that refuses calls, and reads of the script that are
/// refused, short or measured.
#[derive(Clone, Copy)]
pub(crate) struct Needs {
    pub(crate) refusals: bool,
    pub(crate) reads: bool,
}

/// A number that must come of a run, where it is looked at, and the line of the file that wants it.
#[derive(Clone, Copy)]
pub(crate) struct Wish {
    pub(crate) at: usize,
    pub(crate) number: Option<u64>,
}

/// A piece of what must be told or said, and the line of the file that wants it.
#[derive(Drop)]
pub(crate) struct Piece {
    pub(crate) at: usize,
    pub(crate) text: Vec<u8>,
}

/// What must be under a name after a run.
#[derive(Drop)]
pub(crate) enum Form {
    /// A file that reads so.
    Reads(Vec<u8>),
    /// A file that has these parts in this order, with any bytes between them, and how the case writes that.
    Like { text: String, parts: Vec<Vec<u8>> },
    /// No file.
    Absent,
}

/// What must be under a name after a run, and the line of the file that wants it.
#[derive(Drop)]
pub(crate) struct Left {
    pub(crate) at: usize,
    pub(crate) name: String,
    pub(crate) form: Form,
}

/// What a run is given.
#[derive(Drop)]
pub(crate) struct Given {
    pub(crate) words: Vec<String>,
    /// The one folder that is there, or None where every folder is.
    pub(crate) folder: Option<String>,
    pub(crate) schemas: Vec<(String, Vec<u8>)>,
    pub(crate) files: Vec<(String, Vec<u8>)>,
    pub(crate) holds: Locks,
    pub(crate) refuse: Vec<u64>,
    pub(crate) refuse_reads: Vec<u64>,
    pub(crate) script: Vec<u8>,
}

/// What must come of a run.
#[derive(Drop)]
pub(crate) struct Wanted {
    pub(crate) told: Vec<Piece>,
    /// What is told instead where a delete is refused.
    pub(crate) otherwise: Vec<Piece>,
    pub(crate) said: Vec<Piece>,
    pub(crate) status: Wish,
    pub(crate) faults: Wish,
    pub(crate) refusals: Wish,
    pub(crate) asked: Wish,
    pub(crate) held: Locks,
    pub(crate) held_at: usize,
    pub(crate) left: Vec<Left>,
}

/// A run: the line of the file with which it begins, what it is given, and what must come of it.
#[derive(Drop)]
pub(crate) struct Run {
    pub(crate) at: usize,
    pub(crate) given: Given,
    pub(crate) wanted: Wanted,
}

/// A case: its runs over one directory.
#[derive(Drop)]
pub(crate) struct Case {
    pub(crate) at: usize,
    pub(crate) name: String,
    /// No other round of its words follows.
    pub(crate) is_last_round: bool,
    pub(crate) needs: Needs,
    /// The case is done once for each of these lengths of pieces, or with the whole script where there is none.
    pub(crate) pieces: Vec<u64>,
    /// It is done once for each call that the device refuses.
    pub(crate) refuses_each: bool,
    pub(crate) runs: Vec<Run>,
}

// The words of a command line that replays a script.
fn replay_words(alloc: Global) -> anyhow::Result<Vec<String>> {
    let mut words = Vec::new(alloc);
    for word in ["replay", "F", "S"] {
        words.push(String::from_str(alloc, word)?)?;
    }
    Ok(words)
}

impl Given {
    // A replay of a script without events, over a directory without files.
    fn new(alloc: Global) -> anyhow::Result<Given> {
        Ok(Given {
            words: replay_words(alloc)?,
            folder: None,
            schemas: Vec::new(alloc),
            files: Vec::new(alloc),
            holds: NO_LOCKS,
            refuse: Vec::new(alloc),
            refuse_reads: Vec::new(alloc),
            script: Vec::new(alloc),
        })
    }
}

impl Wanted {
    // Nothing is told, and no call is refused.
    fn new(alloc: Global, at: usize) -> Wanted {
        let zero = Wish {
            at,
            number: Some(0),
        };
        Wanted {
            told: Vec::new(alloc),
            otherwise: Vec::new(alloc),
            said: Vec::new(alloc),
            status: zero,
            faults: zero,
            refusals: zero,
            asked: Wish { at, number: None },
            held: NO_LOCKS,
            held_at: at,
            left: Vec::new(alloc),
        }
    }
}

impl Run {
    /// A run of which the case says nothing yet.
    pub(crate) fn new(alloc: Global, at: usize) -> anyhow::Result<Run> {
        Ok(Run {
            at,
            given: Given::new(alloc)?,
            wanted: Wanted::new(alloc, at),
        })
    }
}

// The first run of a case.
fn first_run(alloc: Global, at: usize) -> anyhow::Result<Vec<Run>> {
    let mut runs = Vec::new(alloc);
    runs.push(Run::new(alloc, at)?)?;
    Ok(runs)
}

impl Case {
    /// A case of one run, of which it says nothing yet.
    pub(crate) fn new(alloc: Global, at: usize, name: String) -> anyhow::Result<Case> {
        Ok(Case {
            at,
            name,
            is_last_round: true,
            needs: Needs {
                refusals: false,
                reads: false,
            },
            pieces: Vec::new(alloc),
            refuses_each: false,
            runs: first_run(alloc, at)?,
        })
    }
}
