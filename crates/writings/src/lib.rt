// The operations of the library that write into a space. Each is lent a room of its own, and the space changes only with a 0. The bytes
// of an answer are compared with those that the second program works out; proved is that everything stays within its room.
#![tactic(auto)]

use layout::Model;
use layout::refusals::Refused;
use lending::{Lent, settle, settle_many};
use spaces::reasons::Reason;
use spaces::rooms::{ROOM, Space};
use texts::Answers;

// What the library writes, by its model: the desk calls what a user calls, who has a function for each.
fn publish_table(model: Model, out: &mut [i64]) -> Result<(), Refused> {
    match model {
        Model::Cumulus => cumulus::publish(out),
        Model::Gtm => gtm::publish(out),
    }
}

fn move_table(
    model: Model,
    table: &[i64],
    variable: usize,
    shift: i64,
    out: &mut [i64],
) -> Result<(), Refused> {
    match model {
        Model::Cumulus => cumulus::move_datum(table, variable, shift, out),
        Model::Gtm => gtm::move_datum(table, variable, shift, out),
    }
}

#[inline(never)]
pub fn publish(model: Model, into: &mut Space, out: &mut Answers) {
    let mut lent = Lent::new(into.numbers().len());
    let outcome = publish_table(model, lent.part());
    settle(outcome, &lent, into, out);
}

#[inline(never)]
pub fn move_zero(
    model: Model,
    table: &[i64],
    variable: u64,
    shift: i64,
    into: &mut Space,
    out: &mut Answers,
) {
    let mut lent = Lent::new(into.numbers().len());
    let outcome = move_table(model, table, variable as usize, shift, lent.part());
    settle(outcome, &lent, into, out);
}

// There is room for what so many states are given.
#[inline(never)]
pub fn read_many(
    table: &[i64],
    states: &[i64],
    count: u64,
    into: &mut Space,
    out: &mut Answers,
) -> Result<(), Reason> {
    if count > ROOM as u64 {
        return Err(Reason::NoRoom);
    }
    let mut given = Lent::new(count as usize);
    let mut lent = Lent::new(into.numbers().len());
    let outcome = cumulus::read_many(table, states, given.part(), lent.part());
    settle_many(outcome, &given, &lent, into, out);
    Ok(())
}
