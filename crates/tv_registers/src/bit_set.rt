//! Sets of numbers below a largest one.
ghost use Rattle.std.specs.Prelude.{◌≡◌, ◌<◌, false, true, IfOk, Some, length, replicate, slice_get, slice_set};
ghost use Rattle.tv_registers.specs.BitSets.{size_of};

use std::alloc::Global;
use std::marker::Model;
use tv_formats::Memory;

/// Numbers below a limit. To a contract it is the list that says of each number below the limit
/// whether it is in the set.
#[derive(Drop)]
pub struct BitSet {
    marks: Vec<bool>,
}

impl Model for BitSet {
    ghost use Rattle.std.specs.Prelude.{Bool, List};

    ghost Value = { List Bool };

    ghost view = { λ a. a.marks.items };
}

impl BitSet {
    /// No numbers, of those below `max`.
    pub fn with_max_value(alloc: Global, max: u32) -> Result<BitSet, Memory>
        ensures { IfOk result (λ set. set ≡ replicate max false) }
    {
        let mut marks = Vec::new(alloc);
        marks.resize(max as usize, false)?;
        Ok(BitSet { marks })
    }

    /// Puts a number in.
    pub fn insert(&mut self, el: u32)
        requires below { el < length self.old }
        ensures { self.new ≡ slice_set self.old el true }
    {
        self.marks[el as usize] = true;
    }

    /// Takes a number out.
    pub fn remove(&mut self, el: u32)
        requires below { el < length self.old }
        ensures { self.new ≡ slice_set self.old el false }
    {
        self.marks[el as usize] = false;
    }

    /// Whether a number is in the set. Takes no memory.
    pub fn contains(&self, el: u32) -> bool
        requires below { el < length self.now }
        ensures { slice_get self.now el ≡ Some result }
    {
        self.marks[el as usize]
    }

    /// How many numbers are in the set. Takes no memory.
    pub fn len(&self) -> usize
        ensures { result ≡ size_of self.now }
    {
        self.marks.iter().filter(|mark| **mark).count()
    }

    // The same set.
    pub(crate) fn copy(&self) -> Result<BitSet, Memory>
        ensures { IfOk result (λ set. set ≡ self.now) }
    {
        let alloc = *self.marks.allocator();
        Ok(BitSet {
            marks: self.marks.to_vec(alloc)?,
        })
    }
}
