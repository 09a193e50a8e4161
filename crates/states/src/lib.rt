// Many states of one table, which is looked at once.
#![tactic(auto)]

ghost use Rattle.std.specs.Prelude.{◌≡◌, ◌*◌, ◌<◌, eqb, pos, length};
ghost use Rattle.polynomials.specs.Sum.{listed};
ghost use Rattle.layout.specs.Shape.{shape};
ghost use Rattle.layout.specs.Numbers.{variables_room};
ghost use Rattle.layout.specs.Reading.{readings, read_number, read_output};
ghost use Rattle.layout.specs.Refusals.{given_back};
ghost use Rattle.layout.specs.Moving.{joined};
ghost use Rattle.layout.specs.Many.{zeros, number_at, output_at, many_number, many_numbers, many_output};
ghost use Rattle.tables.specs.Ready.{SoundRead};
ghost use Rattle.states.specs.Ready.{SoundReads};

use layout::refusals::{Refused, given_back};
use layout::{Model, VARIABLES_ROOM};
use std::array;
use tables::reading::read_sound;
use tables::soundness::soundness;

// Whether a count of numbers is `each` for every one of n. The product itself might not fit.
fn fits(count: usize, each: usize, n: usize) -> bool
    ensures { result ≡ eqb count (each * n) }
{
    each.checked_mul(n) == Some(count)
}

// The readings of a state by value.
fn held(state: &[i64]) -> [i64; VARIABLES_ROOM]
    ensures { result ≡ listed variables_room (readings state.now) }
{
    array::from_fn(|variable| state.get(variable).copied().unwrap_or(0))
}

// Reads one state of a sound table into zeros.
fn read_cleared(
    model: Model,
    table: &[i64],
    state: [i64; VARIABLES_ROOM],
    out: &mut [i64],
) -> Result<(), Refused>
    requires { SoundRead (shape model) table.now out.old }
    ensures number { given_back result ≡ read_number (shape model) table.now (readings state) (zeros (shape model)) }
    ensures output { out.new ≡ read_output (shape model) table.now (readings state) (zeros (shape model)) }
{
    out.fill(0);
    read_sound(model, table, state, out)
}

// Reads each state of a sound table. What a state is given is its number and no outcome, since C has numbers there.
fn read_each(model: Model, table: &[i64], states: &[i64], numbers: &mut [u64], out: &mut [i64])
    requires { SoundReads (shape model) table.now states.now (length numbers.old) out.old }
    ensures numbers { numbers.new ≡ listed (length numbers.old) (number_at (shape model) table.now states.now) }
    ensures output { out.new ≡ joined (length numbers.old) (output_at (shape model) table.now states.now) }
{
    let variables = shapes::variables(model);
    let blocks = shapes::blocks(model);
    // by places and not `chunks_exact_mut`: once that borrow is over, a proof knows the length of `out` and no number
    for (k, number) in numbers.iter_mut().enumerate() {
        let from = variables * k;
        let at = blocks * k;
        let state = held(&states[from..from + variables]);
        *number = given_back(read_cleared(model, table, state, &mut out[at..at + blocks]));
    }
}

// Reads a table at as many states as there is room for numbers: each state's number and coefficients are those of a read, and the coefficients are
// zeros where the state is refused. Or refuses the lengths or the table, and leaves both outputs as they were.
pub fn read_many(
    model: Model,
    table: &[i64],
    states: &[i64],
    numbers: &mut [u64],
    out: &mut [i64],
) -> Result<(), Refused>
    ensures number { given_back result ≡ many_number (shape model) table.now states.now numbers.old out.old }
    ensures numbers { numbers.new ≡ many_numbers (shape model) table.now states.now numbers.old out.old }
    ensures output { out.new ≡ many_output (shape model) table.now states.now numbers.old out.old }
{
    if table.len() != shapes::table(model) {
        return Err(Refused::WrongTable);
    }
    let n = numbers.len();
    if !fits(states.len(), shapes::variables(model), n) {
        return Err(Refused::WrongOutput);
    }
    if !fits(out.len(), shapes::blocks(model), n) {
        return Err(Refused::WrongOutput);
    }
    soundness(model, table)?;
    read_each(model, table, states, numbers, out);
    Ok(())
}
