// Ten spaces for tables, and what is done with them. The bytes of an answer are compared with those that the second program works out;
// proved is that everything stays within its room.
#![tactic(auto)]

pub mod drawing;
pub mod keeping;
pub mod reasons;
pub mod rooms;
