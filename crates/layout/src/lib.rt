// Where the numbers of a model's table stand, and the numbers given back.
#![tactic(auto)]

pub mod cumulus_one;
pub mod gtm_longitudinal;
pub mod refusals;

// Room for what any model has.
pub const VARIABLES_ROOM: usize = cumulus_one::VARIABLES;

pub const LIMITS_ROOM: usize = cumulus_one::LIMITS;

// Of variable 0 a reach for each piece, and one of each other variable.
pub const REACHES_ROOM: usize = 1 + VARIABLES_ROOM;

// The pieces of variable 0, each with a group of its own, which come first in a block. A piece stays a number: it is the place of its group and
// of its reach, and the loop that the requirement names for weights goes over the pieces.
pub const LOW: usize = 0;

pub const HIGH: usize = 1;

pub const PIECES: usize = 2;

// The models whose tables there are.
#[derive(Clone, Copy)]
pub enum Model {
    Cumulus,
    Gtm,
}

// One group of every block: its two variables by their numbers, and its degree. A variable stays a number: it is the place of its limits and of its
// reading, and C hands one over that may be none.
#[derive(Clone, Copy)]
pub struct Kind {
    pub u: usize,
    pub v: usize,
    pub degree: usize,
}
