//! What was told to a directory in memory.
ghost use Rattle.std.specs.Prelude.{◌≡◌, ◌<◌, ◌++◌, [], ◌∷◌, length, IfOk};
ghost use Rattle.tv_directory.specs.Pieces.{ReservesRoom, bytes_heard};

use std::alloc::Global;
use std::marker::Model;
use tv_formats::Memory;

/// The pieces that were told, each with its moment, and the room for one more.
/// To a contract it is these pieces, and how many bytes the next may have.
#[derive(Drop)]
pub struct Told {
    alloc: Global,
    // One text for all, since room that is made for a long piece then serves the short ones too.
    text: Vec<u8>,
    // The moment of each piece, and how many bytes of the text it is.
    pieces: Vec<(u64, usize)>,
}

impl Model for Told {
    ghost use Rattle.std.specs.Prelude.{ℕ, ◌≡◌, ◌-◌, length, vec_len, vec_capacity};
    ghost use Rattle.tv_formats.specs.Files.{Heard};
    ghost use Rattle.tv_directory.specs.Pieces.{cut, cut_length, room_of};

    ghost Value = { Heard × ℕ };

    ghost view = { λ a. (
      cut a.pieces.items a.text.items,
      room_of (vec_len a.pieces) (vec_capacity a.pieces) (vec_capacity a.text - vec_len a.text),
    ) };

    ghost invariant = { λ a. cut_length a.pieces.items ≡ length a.text.items };
}

impl Told {
    /// Nothing was told.
    pub fn new(alloc: Global) -> Told
        ensures { result.0 ≡ [] }
    {
        Told {
            alloc,
            text: Vec::new(alloc),
            pieces: Vec::new(alloc),
        }
    }

    /// Makes room for a line of this length and its line feed.
    pub fn ready(&mut self, len: usize) -> Result<(), Memory>
        ensures { ReservesRoom len self.old self.new result }
    {
        let needed = len.checked_add(1).ok_or(Memory)?;
        self.text.reserve(needed)?;
        self.pieces.reserve(1)?;
        Ok(())
    }

    /// Adds a line and its line feed, in the room that was made. Takes no memory.
    pub fn tell(&mut self, moment: u64, line: &[u8])
        requires { length line.now < self.old.1 }
        ensures { self.new.0 ≡ self.old.0 ++ (moment, line.now ++ 10 ∷ []) ∷ [] }
    {
        self.text.extend_from_slice(line).unwrap();
        self.text.push(b'\n').unwrap();
        self.pieces.push((moment, line.len() + 1)).unwrap();
    }

    /// All pieces, one after the other.
    pub fn bytes(&self) -> Result<Vec<u8>, Memory>
        ensures { IfOk result (λ bytes. bytes.items ≡ bytes_heard self.now.0) }
    {
        Ok(Vec::from_slice(self.alloc, self.text.as_slice())?)
    }
}
