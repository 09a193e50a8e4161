// One block of a table: the value of its coefficient, and its groups moved. That an output is as long as what is moved stays a clause: no type says it
// of two slices.
#![tactic(auto)]

ghost use Rattle.std.specs.Prelude.{◌≡◌, ◌≤◌, length, drop};
ghost use Rattle.polynomials.specs.Order.{size};
ghost use Rattle.polynomials.specs.Binomial.{shift_in};
ghost use Rattle.polynomials.specs.Groups.{grouped, value_of, total, moved_group};
ghost use Rattle.polynomials.specs.Limits.{highest_degree};
ghost use Rattle.layout.specs.Shape.{shape};
ghost use Rattle.layout.specs.Blocks.{led, coefficient, piece as piece_of};
ghost use Rattle.layout.specs.Reading.{readings};
ghost use Rattle.layout.specs.Moving.{moved_block};
ghost use Rattle.blocks.specs.Ready.{between, placed, GroupAt, Valued, ShiftableGroup, Between, Shiftable};

use layout::{Kind, Model, PIECES};
use polynomials::Variable;
use shifting::Rows;

// The value of the group of a kind that starts at a place of a table, at a state. Out of line it makes a read a quarter longer, and past
// the stack that README.md promises.
#[inline(always)]
fn group_at(table: &[i64], start: usize, kind: Kind, state: &[i64]) -> i64
    requires low { kind.degree ≤ highest_degree }
    requires group { GroupAt table.now start (size kind.degree) kind.u kind.v state.now }
    ensures { result ≡ value_of (led kind (drop start table.now)) (readings state.now) }
{
    let end = start + shapes::size(kind);
    polynomials::value_at(&table[start..end], state[kind.u], state[kind.v])
}

// The coefficient of a block at a state, in the low piece (0) or the high one (1): the piece's own group, then those that count in both.
pub fn coefficient_at(model: Model, table: &[i64], block: usize, piece: usize, state: &[i64]) -> i64
    requires { Valued (shape model) table.now block piece state.now }
    ensures { result ≡ total (coefficient (shape model) table.now block (piece_of piece)) (readings state.now) }
{
    let own = shapes::kind(model, 0);
    let size = shapes::size(own);
    let start = shapes::start(model, block);
    let mut at = start + PIECES * size;
    let mut sum = group_at(table, start + size * piece, own, state);
    for group in PIECES..shapes::groups(model) {
        let kind = shapes::kind(model, group);
        sum += group_at(table, at, kind, state);
        at += shapes::size(kind);
    }
    sum
}

// The numbers as they are.
pub fn copy(from: &[i64], out: &mut [i64])
    requires { length out.old ≡ length from.now }
    ensures { out.new ≡ from.now }
{
    // of std's `copy_from_slice` the compiler makes a call of memmove, which not every host in C has
    for at in 0..from.len() {
        out[at] = from[at];
    }
}

// A group of a kind, moved in one of the table's variables by the shift of the rows: in its first, in its second, or in neither.
fn move_part(from: &[i64], out: &mut [i64], kind: Kind, variable: usize, rows: &Rows)
    requires same_length { length out.old ≡ length from.now }
    requires shiftable { ShiftableGroup kind.u kind.v variable (shift_in rows.now.numbers) from.now }
    ensures { out.new ≡ (moved_group variable (shift_in rows.now.numbers) (grouped kind.u kind.v from.now)).numbers }
{
    if kind.u == variable {
        shifting::move_group(from, out, Variable::First, rows);
        return;
    }
    if kind.v == variable {
        shifting::move_group(from, out, Variable::Second, rows);
        return;
    }
    copy(from, out);
}

// The group that stands from `start` to `end` of a block, moved, at the same places of the output. As slices the two would be cut at each of three
// calls.
fn move_between(
    from: &[i64],
    out: &mut [i64],
    start: usize,
    end: usize,
    kind: Kind,
    variable: usize,
    rows: &Rows,
)
    requires { Between from.now out.old start end kind.u kind.v variable (shift_in rows.now.numbers) }
    ensures { out.new ≡ placed out.old start end (moved_group variable (shift_in rows.now.numbers) (grouped kind.u kind.v (between from.now start end))).numbers }
{
    move_part(
        &from[start..end],
        &mut out[start..end],
        kind,
        variable,
        rows,
    );
}

// A block with each of its groups moved, written into the part of the output that belongs to it: the pieces' own, then those that count in
// both.
pub fn move_block(model: Model, from: &[i64], out: &mut [i64], variable: usize, rows: &Rows)
    requires same_length { length out.old ≡ length from.now }
    requires shiftable { Shiftable (shape model) variable (shift_in rows.now.numbers) from.now }
    ensures { out.new ≡ moved_block (shape model) variable (shift_in rows.now.numbers) from.now }
{
    let own = shapes::kind(model, 0);
    let size = shapes::size(own);
    let mut at = PIECES * size;
    move_between(from, out, 0, size, own, variable, rows);
    move_between(from, out, size, at, own, variable, rows);
    for group in PIECES..shapes::groups(model) {
        let kind = shapes::kind(model, group);
        let end = at + shapes::size(kind);
        move_between(from, out, at, end, kind, variable, rows);
        at = end;
    }
}
