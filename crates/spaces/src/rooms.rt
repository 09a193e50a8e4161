// The spaces: each is a room for numbers, of which the first ones are its numbers. The room is no Vec, since there is no heap.
ghost use Rattle.std.specs.Prelude.{◌≡◌, ◌<◌, ◌≤◌, min, MatchResult, length};
ghost use Rattle.spaces.specs.Sizes.{space_room};

use super::drawing::draw;
use super::reasons::Reason;

pub const SPACES: usize = 10;

pub const ROOM: usize = 320;

#[derive(Clone, Copy)]
pub struct Space {
    room: [i64; ROOM],
    length: usize,
    ghost fits: { length ≤ space_room },
}

impl Space {
    // A space of zeros, no longer than its room.
    pub fn new(length: usize) -> Space
        ensures { result.length ≡ min length space_room }
    {
        Space {
            room: [0; ROOM],
            length: length.min(ROOM),
        }
    }

    pub fn numbers(&self) -> &[i64]
        ensures count { length result.now ≡ self.now.length }
        ensures room { length result.now ≤ space_room }
    {
        &self.room[..self.length]
    }

    pub fn set(&mut self, place: u64, number: i64) -> Result<(), Reason>
        ensures which { MatchResult result (λ _. place < self.old.length) (λ _. self.old.length ≤ place) }
        ensures kept { self.new.length ≡ self.old.length }
    {
        if place as usize >= self.length {
            return Err(Reason::NoPlace);
        }
        self.room[place as usize] = number;
        Ok(())
    }

    // Draws numbers from a place on.
    pub fn fill(&mut self, place: u64, step: u64, size: u64, seed: u64) -> Result<(), Reason>
        ensures which { MatchResult result (λ _. place < self.old.length) (λ _. self.old.length ≤ place) }
        ensures kept { self.new.length ≡ self.old.length }
    {
        let from = place as usize;
        if from >= self.length {
            return Err(Reason::NoPlace);
        }
        draw(&mut self.room[from..self.length], step as usize, size, seed);
        Ok(())
    }

    // Its numbers become those, as many as it has room for.
    pub fn write(&mut self, numbers: &[i64])
        ensures { self.new.length ≡ min (length numbers.now) space_room }
    {
        let count = numbers.len().min(ROOM);
        // The 0 is needed: with `..count` the borrow checker has no rule for a field beside an invariant.
        self.room[0..count].copy_from_slice(&numbers[..count]);
        self.length = count;
    }

    // New numbers are 0.
    pub fn set_length(&mut self, count: u64) -> Result<(), Reason>
        ensures { MatchResult result (λ _. count ≤ space_room) (λ _. space_room < count) }
    {
        if count > ROOM as u64 {
            return Err(Reason::NoRoom);
        }
        self.room[self.length..].fill(0);
        self.length = count as usize;
        Ok(())
    }
}

#[derive(Drop)]
pub struct Spaces {
    all: [Space; SPACES],
}

impl Spaces {
    pub fn new(length: usize) -> Spaces {
        Spaces {
            all: [Space::new(length); SPACES],
        }
    }

    pub fn get(&self, space: u64) -> Result<&Space, Reason>
        ensures { MatchResult result (λ _. space < SPACES) (λ _. SPACES ≤ space) }
    {
        self.all.get(space as usize).ok_or(Reason::NoSpace)
    }

    pub fn get_mut(&mut self, space: u64) -> Result<&mut Space, Reason>
        ensures { MatchResult result (λ _. space < SPACES) (λ _. SPACES ≤ space) }
    {
        self.all.get_mut(space as usize).ok_or(Reason::NoSpace)
    }
}
