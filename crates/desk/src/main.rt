// Answers each line of a script on standard input with a line on standard output.
#![tactic(auto)]

use layout::cumulus_one::TABLE;
use scripts::LONGEST;
use spaces::rooms::Spaces;
use std::io;
use std::io::Write;
use streams::Answering;
use texts::{Answers, Line};

#[derive(Drop)]
struct Desk {
    line: Line,
    spaces: Spaces,
    answers: Answers,
}

impl Desk {
    // Each space starts with the length of a table.
    fn new() -> Desk {
        Desk {
            line: Line::new(),
            spaces: Spaces::new(TABLE),
            answers: Answers::new(),
        }
    }

    fn write_out<W: Write>(&mut self, to: &mut W) -> io::Result<()> {
        streams::write(to, self.answers.written())?;
        self.answers.clear();
        Ok(())
    }

    fn answer(&mut self) {
        scripts::answer(&self.line, &mut self.spaces, &mut self.answers);
        self.line.clear();
    }
}

impl Answering for Desk {
    fn take_piece<W: Write>(&mut self, piece: &[u8], to: &mut W) -> io::Result<()> {
        for byte in piece {
            if *byte == b'\n' {
                // What is there is written out first where the longest answer has no room behind it. Asked here, since what a write came to is large,
                // and most lines write nothing.
                if self.answers.room() < LONGEST {
                    self.write_out(to)?;
                }
                self.answer();
            } else {
                self.line.hold(*byte);
            }
        }
        self.write_out(to)
    }

    // Answers a last line that no newline ends. The answers before it are written out with their piece.
    fn finish<W: Write>(&mut self, to: &mut W) -> io::Result<()> {
        if self.line.is_empty() {
            return Ok(());
        }
        self.answer();
        self.write_out(to)
    }
}

fn main(rt: HostRuntime) {
    let mut desk = Desk::new();
    let end = streams::run(&mut desk, &mut rt.stdin(), &mut rt.stdout());
    streams::tell(
        &mut rt.stderr(),
        end,
        b"desk: the script cannot be read",
        b"desk: the answers cannot be written",
    );
}
