// The operations of the library on tables in spaces: which one is asked for, and of which spaces.
#![tactic(auto)]

use commands::Operation;
use layout::Model;
use readings::{read, read_floats, read_microradians};
use spaces::reasons::Reason;
use spaces::rooms::Spaces;
use texts::Answers;
use writings::{move_zero, publish, read_many};

// A table may be moved or read into its own space, so it is copied first. What holds a copy or a lent room is out of line, here and in `writings` and
// `readings`: a function clears what it holds at each call, and one that held them all would do so for lines that need none.
#[inline(never)]
fn move_space(
    model: Model,
    space: u64,
    variable: u64,
    shift: i64,
    into: u64,
    spaces: &mut Spaces,
    out: &mut Answers,
) -> Result<(), Reason> {
    let table = *spaces.get(space)?;
    let into = spaces.get_mut(into)?;
    move_zero(model, table.numbers(), variable, shift, into, out);
    Ok(())
}

#[inline(never)]
fn read_states(
    space: u64,
    states: u64,
    count: u64,
    into: u64,
    spaces: &mut Spaces,
    out: &mut Answers,
) -> Result<(), Reason> {
    let table = *spaces.get(space)?;
    let states = *spaces.get(states)?;
    let into = spaces.get_mut(into)?;
    read_many(table.numbers(), states.numbers(), count, into, out)
}

#[inline(never)]
pub fn operate(operation: Operation, spaces: &mut Spaces, out: &mut Answers) -> Result<(), Reason> {
    match operation {
        Operation::Publish { model, into } => publish(model, spaces.get_mut(into)?, out),
        Operation::Move {
            model,
            space,
            variable,
            shift,
            into,
        } => move_space(model, space, variable, shift, into, spaces, out)?,
        Operation::Read { space, room, state } => {
            read(spaces.get(space)?.numbers(), room, state, out)?
        }
        Operation::Floats {
            space,
            alpha,
            beta,
            xi,
            eta,
            zeta,
        } => {
            let table = spaces.get(space)?.numbers();
            read_floats(table, [alpha, beta, xi, eta, zeta], out);
        }
        Operation::Microradians {
            room,
            alpha,
            beta,
            xi,
            eta,
            zeta,
        } => read_microradians(room, [alpha, beta, xi, eta, zeta], out)?,
        Operation::Many {
            space,
            states,
            count,
            into,
        } => read_states(space, states, count, into, spaces, out)?,
    }
    Ok(())
}
