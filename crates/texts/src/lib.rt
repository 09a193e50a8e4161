// Texts in rooms of a fixed size: the bytes of a line as they come, and the answers, each written behind the one before. What has no room is
// cut off.
#![tactic(auto)]

ghost use Rattle.std.specs.Prelude.{◌≡◌, ◌≤◌, ◌<◌, ◌+◌, ◌++◌, ◌↔◌, IsTrue, List, MatchOption, [], ◌∷◌, ℕ, length, take};
ghost use Rattle.texts.specs.Held.{held_after, line_after, longest_line};
ghost use Rattle.texts.specs.Room.{answers_room};

use std::fmt;
use std::fmt::{Display, Write};
use std::marker::Model;

// The room for answers.
pub const OUT: usize = 65536;

// The most bytes of a line.
pub const LINE: usize = 256;

// The first bytes of a line and how many are held: one more than there is room for where the line is too long, which is a number and
// no enum, as `hold` promises it. The room is no Vec, since there is no heap.
#[derive(Drop)]
pub struct Line {
    pub bytes: [u8; LINE],
    pub held: usize,
}

impl Line {
    pub fn new() -> Line
        ensures { result.held ≡ 0 }
    {
        Line {
            bytes: [0; LINE],
            held: 0,
        }
    }

    // One byte more.
    pub fn hold(&mut self, byte: u8)
        ensures value { self.new.held ≡ held_after self.old.held }
        ensures line_after { self.new.bytes ≡ line_after self.old.bytes self.old.held byte }
    {
        if self.held >= LINE {
            self.held = LINE + 1;
            return;
        }
        self.bytes[self.held] = byte;
        self.held += 1;
    }

    pub fn clear(&mut self)
        ensures { self.new.held ≡ 0 }
    {
        self.held = 0;
    }

    pub fn is_empty(&self) -> bool
        ensures { IsTrue result ↔ self.now.held ≡ 0 }
    {
        self.held == 0
    }

    // What the line says, where it is not too long.
    pub fn text(&self) -> Option<&[u8]>
        ensures { MatchOption result (longest_line < self.now.held) (λ text. text.now ≡ take self.now.held self.now.bytes) }
    {
        self.bytes.get(..self.held)
    }
}

// The answers that are not written out yet. Their room is no Vec, since there is no heap.
#[derive(Drop)]
pub struct Answers {
    bytes: [u8; OUT],
    end: usize,
}

impl Model for Answers {
    ghost Value = { List ℕ };

    ghost view = { λ a. take a.end a.bytes };

    ghost invariant = { λ a. a.end ≤ answers_room };
}

impl Answers {
    pub fn new() -> Answers
        ensures { result ≡ [] }
    {
        Answers {
            bytes: [0; OUT],
            end: 0,
        }
    }

    pub fn clear(&mut self)
        ensures { self.new ≡ [] }
    {
        self.end = 0;
    }

    pub fn room(&self) -> usize
        ensures { result + length self.now ≡ answers_room }
    {
        OUT - self.end
    }

    pub fn written(&self) -> &[u8]
        ensures { result.now ≡ self.now }
    {
        &self.bytes[..self.end]
    }

    pub fn put_text(&mut self, text: &[u8])
        ensures { self.new ≡ take answers_room (self.old ++ text.now) }
    {
        let count = text.len().min(OUT - self.end);
        self.bytes[self.end..self.end + count].copy_from_slice(&text[..count]);
        self.end += count;
    }

    // A byte alone, as the newline of each answer, for which a copy of a text is a call.
    pub fn put_byte(&mut self, byte: u8)
        ensures { self.new ≡ take answers_room (self.old ++ byte ∷ []) }
    {
        if self.end < OUT {
            self.bytes[self.end] = byte;
            self.end += 1;
        }
    }

    // Nothing is said of the bytes: a value's own printing may break off.
    pub fn put<D: Display + Drop>(&mut self, value: D) {
        let _ = write!(self, "{value}");
    }

    // Numbers, parted by spaces.
    pub fn put_numbers<D: Display + Copy>(&mut self, numbers: &[D]) {
        for (k, number) in numbers.iter().enumerate() {
            if k > 0 {
                self.put(" ");
            }
            self.put(*number);
        }
    }
}

impl Write for Answers {
    ghost write_str_gives = { λ before text after. after ≡ take answers_room (before ++ text) };

    fn write_str(&mut self, text: &str) -> fmt::Result {
        self.put_text(text.as_bytes());
        Ok(())
    }
}
