//! The lines that are told.
ghost use Rattle.std.specs.Prelude.{◌≡◌, ◌∷◌, ◌++◌, true, IfOk};
ghost use Rattle.std.specs.Fmt.{decimal};
ghost use Rattle.hex.specs.Hex.{encode_lower};
ghost use Rattle.tv_formats.specs.Ids.{IsId};
ghost use Rattle.tv_formats.specs.Files.{has_no_feed};
ghost use Rattle.tv_events.specs.AnswerLines.{payload_word, segment_word, bytes_word};

use crate::blob::Text;
use std::alloc::Global;
use std::marker::Model;
use tv_formats::{FileName, LiveSegment, Memory, SegmentId};

/// A line that is told. No line feed stands in it.
#[derive(Debug, Drop)]
pub struct Answer {
    text: Vec<u8>,
}

impl Model for Answer {
    ghost use Rattle.std.specs.Prelude.{List, ℕ, ◌≡◌, true};
    ghost use Rattle.tv_formats.specs.Files.{has_no_feed};

    ghost Value = { List ℕ };

    ghost view = { λ a. a.text.items };

    ghost invariant = { λ a. has_no_feed a.text.items ≡ true };
}

impl Answer {
    /// A line of this text.
    pub fn new(alloc: Global, text: &str) -> Result<Answer, Memory>
        requires { has_no_feed text.now ≡ true }
        ensures { IfOk result (λ line. line ≡ text.now) }
    {
        let text = Vec::from_slice(alloc, text.as_bytes())?;
        Ok(Answer { text })
    }

    /// A line of these bytes, among which is no line feed, in the memory that they have.
    pub fn from_bytes(text: Vec<u8>) -> Answer
        requires { has_no_feed text.items ≡ true }
        ensures { result ≡ text.items }
    {
        Answer { text }
    }

    /// The line with one more word, after a space.
    pub fn word(self, word: &[u8]) -> Result<Answer, Memory>
        requires { has_no_feed word.now ≡ true }
        ensures { IfOk result (λ line. line ≡ self ++ 32 ∷ word.now) }
    {
        let mut text = self.text;
        text.push(b' ')?;
        text.extend_from_slice(word)?;
        Ok(Answer { text })
    }

    /// The line with an id, in lower-case digits.
    pub fn id(self, id: SegmentId) -> Result<Answer, Memory>
        ensures line { IfOk result (λ line. line ≡ self ++ 32 ∷ encode_lower id) }
        ensures id { IsId id }
    {
        let mut digits = [0; 32];
        id.write_digits(&mut digits);
        self.word(&digits)
    }

    /// The line with a number.
    pub fn number(self, number: u64) -> Result<Answer, Memory>
        ensures { IfOk result (λ line. line ≡ self ++ 32 ∷ decimal number) }
    {
        let mut digits = itoa::Buffer::new();
        self.word(digits.format(number).as_bytes())
    }

    /// The line with the name of a file.
    pub fn name(self, name: &FileName) -> Result<Answer, Memory>
        ensures { IfOk result (λ line. line ≡ self ++ 32 ∷ name.now) }
    {
        self.word(name.as_str().as_bytes())
    }

    // The line with more bytes at the end of its last word.
    fn more(self, bytes: &[u8]) -> Result<Answer, Memory>
        requires { has_no_feed bytes.now ≡ true }
        ensures { IfOk result (λ line. line ≡ self ++ bytes.now) }
    {
        let mut text = self.text;
        text.extend_from_slice(bytes)?;
        Ok(Answer { text })
    }

    // The line with bytes in lower-case digits at the end of its last word.
    fn digits(self, alloc: Global, bytes: &[u8]) -> Result<Answer, Memory>
        ensures { IfOk result (λ line. line ≡ self ++ encode_lower bytes.now) }
    {
        let digits = hex::encode(alloc, bytes)?;
        self.more(digits.as_bytes())
    }

    /// The line with some bytes, in lower-case digits; `-` where there are none.
    pub fn bytes(self, alloc: Global, bytes: &[u8]) -> Result<Answer, Memory>
        ensures { IfOk result (λ line. line ≡ self ++ 32 ∷ bytes_word bytes.now) }
    {
        if bytes.is_empty() {
            return self.word(b"-");
        }
        self.word(b"")?.digits(alloc, bytes)
    }

    /// The line with a payload: `+` and its bytes in lower-case digits; `-` where there is none.
    pub fn payload(self, alloc: Global, payload: &Option<Text>) -> Result<Answer, Memory>
        ensures { IfOk result (λ line. line ≡ self ++ 32 ∷ payload_word payload.now) }
    {
        match payload {
            None => self.word(b"-"),
            Some(text) => self.word(b"+")?.digits(alloc, text.as_str().as_bytes()),
        }
    }

    /// The line with a segment: its id, and behind `=` how many of its documents are living.
    pub fn segment(self, id: SegmentId, segment: LiveSegment) -> Result<Answer, Memory>
        ensures { IfOk result (λ line. line ≡ self ++ 32 ∷ segment_word (id, segment)) }
    {
        let mut digits = itoa::Buffer::new();
        let count = u64::from(segment.num_docs());
        self.id(id)?
            .more(b"=")?
            .more(digits.format(count).as_bytes())
    }

    /// Its bytes, among which is no line feed. Takes no memory.
    pub fn into_bytes(self) -> Vec<u8>
        ensures bytes { result.items ≡ self }
        ensures feed { has_no_feed result.items ≡ true }
    {
        self.text
    }

    /// Its bytes, among which is no line feed.
    pub fn as_slice(&self) -> &[u8]
        ensures bytes { result.now ≡ self.now }
        ensures feed { has_no_feed result.now ≡ true }
    {
        self.text.as_slice()
    }
}
