// What a line of a script does with the spaces. The bytes of an answer are compared with those that the second program works out;
// proved are the command of a line, and that everything stays within its room.
#![tactic(auto)]

mod uses;

ghost use Rattle.std.specs.Prelude.{◌≤◌, length};
ghost use Rattle.texts.specs.Room.{answers_room};

use commands::{Command, command_of};
use operations::operate;
use spaces::keeping::keep;
use spaces::reasons::Reason;
use spaces::rooms::{ROOM, Spaces};
use texts::{Answers, Line};
use uses::usage;

// The most bytes of an answer: the numbers of a space, each with a minus, 19 digits and what parts it from the next.
pub const LONGEST: usize = ROOM * 21;

fn obey(line: &[u8], spaces: &mut Spaces, out: &mut Answers) -> Result<(), Reason> {
    match command_of(line) {
        Command::Blank => {}
        Command::Comment => out.put_text(line),
        Command::Unknown => out.put("? no such command"),
        Command::Misused(name) => out.put_text(usage(name)),
        Command::Operation(operation) => operate(operation, spaces, out)?,
        Command::Keeping(keeping) => keep(keeping, spaces, out)?,
    }
    Ok(())
}

// Answers a line with a line.
pub fn answer(line: &Line, spaces: &mut Spaces, out: &mut Answers)
    ensures { length out.new ≤ answers_room }
{
    match line.text() {
        Some(text) => {
            if let Err(reason) = obey(text, spaces, out) {
                out.put(reason);
            }
        }
        None => out.put("? a line has at most 256 bytes"),
    }
    out.put_byte(b'\n');
}
