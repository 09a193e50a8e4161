// The operations of the library that read, and leave every space as it was. Each is lent a room of its own, but for the one that answers
// with floats. The bytes of an answer are compared with those that the second program works out; proved is that everything stays within
// its room.
#![tactic(auto)]

use commands::State;
use layout::cumulus_one::VARIABLES;
use layout::refusals::Refused;
use lending::{Lent, put_read};
use patterns::{floats_of, put_answer};
use spaces::reasons::Reason;
use spaces::rooms::ROOM;
use texts::Answers;

// What the library reads, by the model of the state: the desk calls what a user calls, who has a function for each.
fn read_table(table: &[i64], state: State, out: &mut [i64]) -> Result<(), Refused> {
    match state {
        State::Cumulus {
            alpha,
            beta,
            xi,
            eta,
            zeta,
        } => cumulus::read(table, [alpha, beta, xi, eta, zeta], out),
        State::Gtm { alpha, eta } => gtm::read(table, [alpha, eta], out),
    }
}

fn lend(room: u64) -> Result<Lent<i64>, Reason> {
    if room > ROOM as u64 {
        return Err(Reason::NoRoom);
    }
    Ok(Lent::new(room as usize))
}

#[inline(never)]
pub fn read(table: &[i64], room: u64, state: State, out: &mut Answers) -> Result<(), Reason> {
    let mut lent = lend(room)?;
    let outcome = read_table(table, state, lent.part());
    put_read(outcome, &lent, out);
    Ok(())
}

#[inline(never)]
pub fn read_microradians(
    room: u64,
    readings: [i64; VARIABLES],
    out: &mut Answers,
) -> Result<(), Reason> {
    let mut lent = lend(room)?;
    let outcome = microradians::read(readings, lent.part());
    put_read(outcome, &lent, out);
    Ok(())
}

#[inline(never)]
pub fn read_floats(table: &[i64], readings: [u64; VARIABLES], out: &mut Answers) {
    put_answer(door::read_floats(table, floats_of(readings)), out);
}
