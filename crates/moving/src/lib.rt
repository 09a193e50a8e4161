// Moving the datum of one variable of a table.
#![tactic(auto)]

ghost use Rattle.std.specs.Prelude.{◌≡◌, true, [], ◌∷◌, ◌++◌, ◌+◌, ◌-◌, ◌^◌, ◌<◌, ◌≤◌, length, take, drop, get_or};
ghost use Rattle.polynomials.specs.Sum.{listed};
ghost use Rattle.layout.specs.Shape.{shape, limits_length, table_length};
ghost use Rattle.layout.specs.Numbers.{limits_room, reaches_room};
ghost use Rattle.layout.specs.Moving.{moved_table, move_number, move_output};
ghost use Rattle.layout.specs.Accepted.{MoveAccepted};
ghost use Rattle.layout.specs.Refusals.{refusal_number, given_back, first, ◌when◌};
ghost use Rattle.tables.specs.Ready.{unsound};
ghost use Rattle.moving.specs.Ready.{longer_at, Lengthened, HoldsMoved, Movable, move_own};

use blocks::move_block;
use layout::refusals::Refused;
use layout::{LIMITS_ROOM, Model, REACHES_ROOM};
use limits::{Limits, MOST};
use shifting::multiplied_out;
use tables::soundness::soundness;
use weights::within_cap;

// No shift from one limit in range to another is longer. Variable and shift stay two parameters: C hands them over so, and each is refused by itself.
const LONGEST: u64 = (MOST + MOST) as u64;

// The reaches with each of one variable longer by `more`: variable 0 has the first two, and each other one.
fn longer(mut reaches: [u64; REACHES_ROOM], variable: usize, more: u64) -> [u64; REACHES_ROOM]
    requires { Lengthened reaches variable more }
    ensures { result ≡ listed reaches_room (longer_at reaches variable more) }
{
    for place in 0..REACHES_ROOM {
        if place.saturating_sub(1) == variable {
            reaches[place] += more;
        }
    }
    reaches
}

// The limits, written where an output has them.
fn write_limits(limits: Limits, out: &mut [i64])
    requires { (length limits.numbers ≡ limits_room) × (limits_room ≤ length out.old) }
    ensures { out.new ≡ take (limits_length (shape limits.model)) limits.numbers ++ drop (limits_length (shape limits.model)) out.old }
{
    let count = shapes::limits(limits.model);
    // of a loop that ends at `count` the compiler makes a call of memcpy, which not every host has
    for k in 0..LIMITS_ROOM {
        if k < count {
            out[k] = limits.numbers[k];
        }
    }
}

// Refuses a move of a table with good limits, of which the moved ones are at hand: a limit would leave its range, or the weight rule does not hold.
// A move keeps the order of the limits, so that the moved ones are good where they are in range.
fn refusal(
    model: Model,
    table: &[i64],
    moved: Limits,
    variable: usize,
    shift: i64,
) -> Result<(), Refused>
    requires { Movable model table.now variable shift moved }
    ensures { given_back result ≡ first (move_own (shape model) table.now variable shift) }
{
    if !moved.good() {
        return Err(Refused::LimitPast);
    }
    let reaches = longer(moved.reaches(), variable, shift.unsigned_abs());
    if !within_cap(model, table, reaches) {
        return Err(Refused::MoveTooHeavy);
    }
    Ok(())
}

// The refusal of a table that is not sound comes before any other of the move.
fn unless_unsound(model: Model, table: &[i64], refused: Refused) -> Result<(), Refused>
    requires { length table.now ≡ table_length (shape model) }
    ensures { given_back result ≡ first (unsound (shape model) table.now ++ (refusal_number refused when true) ∷ []) }
{
    soundness(model, table)?;
    Err(refused)
}

// The moved table, written into `out`: the limits, then each block into the part that belongs to it.
fn write_moved(
    model: Model,
    table: &[i64],
    moved: Limits,
    variable: usize,
    shift: i64,
    out: &mut [i64],
)
    requires { MoveAccepted (shape model) table.now variable shift out.old × HoldsMoved model table.now variable shift moved }
    ensures { out.new ≡ moved_table (shape model) variable shift table.now }
{
    write_limits(moved, out);
    let rows = multiplied_out(shift);
    let size = shapes::block(model);
    for block in 0..shapes::blocks(model) {
        let start = shapes::start(model, block);
        let end = start + size;
        move_block(
            model,
            &table[start..end],
            &mut out[start..end],
            variable,
            &rows,
        );
    }
}

// Moves a variable of a table into an output as long. The weights are worked out once: those of the weight rule are no less than the table's own, which
// are worked out only where the move is refused.
fn move_whole(
    model: Model,
    table: &[i64],
    variable: usize,
    shift: i64,
    out: &mut [i64],
) -> Result<(), Refused>
    requires { (length table.now ≡ table_length (shape model)) × ((length out.old ≡ table_length (shape model)) × (variable < (shape model).variables)) }
    ensures number { given_back result ≡ move_number (shape model) table.now variable shift out.old }
    ensures output { out.new ≡ move_output (shape model) table.now variable shift out.old }
{
    let limits = Limits::of(model, table);
    if !limits.good() {
        return Err(Refused::BadLimits);
    }
    if shift.unsigned_abs() > LONGEST {
        return unless_unsound(model, table, Refused::LimitPast);
    }
    let moved = limits.moved(variable, shift);
    if let Err(refused) = refusal(model, table, moved, variable, shift) {
        return unless_unsound(model, table, refused);
    }
    write_moved(model, table, moved, variable, shift, out);
    Ok(())
}

// Writes the table with the zero of one variable moved by `shift` into `out`, or refuses and leaves `out` as it was. The moved
// table answers at a reading less `shift` what this one answers at the reading.
pub fn move_datum(
    model: Model,
    table: &[i64],
    variable: usize,
    shift: i64,
    out: &mut [i64],
) -> Result<(), Refused>
    ensures number { given_back result ≡ move_number (shape model) table.now variable shift out.old }
    ensures output { out.new ≡ move_output (shape model) table.now variable shift out.old }
{
    if table.len() != shapes::table(model) {
        return Err(Refused::WrongTable);
    }
    if out.len() != shapes::table(model) {
        return Err(Refused::WrongOutput);
    }
    if variable >= shapes::variables(model) {
        return Err(Refused::NoVariable);
    }
    move_whole(model, table, variable, shift, out)
}
