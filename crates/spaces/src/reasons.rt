// Why a command is not obeyed.
use std::fmt;
use std::fmt::{Display, Formatter, Write};

#[derive(Clone, Copy)]
pub enum Reason {
    NoSpace,
    NoRoom,
    NoPlace,
}

impl Display for Reason {
    fn fmt<W: Write>(&self, f: &mut Formatter<W>) -> fmt::Result {
        f.write_str(match self {
            Reason::NoSpace => "? the spaces are 0 to 9",
            Reason::NoRoom => "? there is room for 320 numbers",
            Reason::NoPlace => "? no such place",
        })
    }
}
