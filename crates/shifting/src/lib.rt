// A group moved: the powers of v + s are multiplied out once, and every number of the moved group is made from them.
#![tactic(auto)]

ghost use Rattle.std.specs.Prelude.{◌≡◌, ◌+◌, ◌^◌, ◌≤◌, ◌<◌, nat_abs, length};
ghost use Rattle.polynomials.specs.Numbers.{ints};
ghost use Rattle.polynomials.specs.Sum.{listed};
ghost use Rattle.polynomials.specs.Order.{place};
ghost use Rattle.polynomials.specs.Binomial.{multiplied_out, multiplied_rows, shift_in};
ghost use Rattle.polynomials.specs.Group.{own, moved_number, moved};
ghost use Rattle.polynomials.specs.Limits.{farthest, highest_degree};
ghost use Rattle.polynomials.specs.Ready.{Movable};
ghost use Rattle.polynomials.specs.declared.Variable.TheVariants.{First, Second};

use polynomials::Variable;

// The powers 0 to 4 of v + s multiplied out, a row for each: at p of row k what stands before v^p. The shift s needs no field: the rows tell it.
#[derive(Clone, Copy)]
pub struct Rows {
    pub numbers: [[i64; 5]; 5],
    pub ghost of_a_shift: { numbers ≡ multiplied_rows (shift_in numbers) },
}

// The binomial numbers for powers 0 to 4: k over p stands in row k at p.
const BINOMIALS: [[i64; 5]; 5] = [
    [1, 0, 0, 0, 0],
    [1, 1, 0, 0, 0],
    [1, 2, 1, 0, 0],
    [1, 3, 3, 1, 0],
    [1, 4, 6, 4, 1],
];

// (v + s)^k multiplied out: at p what stands before v^p.
fn multiplied_row(s: i64, k: usize) -> [i64; 5]
    requires { (nat_abs s ≤ farthest) × (k ≤ highest_degree) }
    ensures { result ≡ listed 5 (multiplied_out ints s k) }
{
    let mut row = BINOMIALS[k];
    let mut power: i64 = 1;
    for p in (0..k).rev() {
        power *= s;
        row[p] *= power;
    }
    row
}

// The rows of a shift.
pub fn multiplied_out(s: i64) -> Rows
    requires { nat_abs s ≤ farthest }
    ensures { result.numbers ≡ multiplied_rows s }
{
    let numbers = [
        multiplied_row(s, 0),
        multiplied_row(s, 1),
        multiplied_row(s, 2),
        multiplied_row(s, 3),
        multiplied_row(s, 4),
    ];
    Rows { numbers }
}

// The other variable.
fn other(which: Variable) -> Variable
    ensures { result ≡ own which Second First }
{
    match which {
        Variable::First => Variable::Second,
        Variable::Second => Variable::First,
    }
}

// How many places after a number of this total degree the one with one power more of the variable stands.
fn gap(degree: usize, which: Variable) -> usize
    requires { degree + 2 < 2 ^ 64 }
    ensures { result ≡ own which (degree + 1) (degree + 2) }
{
    match which {
        Variable::First => degree + 1,
        Variable::Second => degree + 2,
    }
}

// The number that stands before the power p of the variable beside the power `beside` of the other, at the place `at`, once the group is
// moved: the larger powers of the variable stand further and further on, and each gives its number times what stands before p in its row.
// Group and place stay two: the contract is over the whole group.
fn moved_number(
    from: &[i64],
    which: Variable,
    at: usize,
    beside: usize,
    p: usize,
    rows: &Rows,
) -> i64
    requires movable { Movable which (shift_in rows.now.numbers) from.now }
    requires there { (at ≡ place (own which p beside) (own which beside p)) × (at < length from.now) }
    ensures { result ≡ moved_number ints which (shift_in rows.now.numbers) from.now (own which p beside) (own which beside p) }
{
    let mut sum: i64 = 0;
    let mut i = at;
    let mut j: usize = 0;
    // no range: the step to the next place of a chain grows
    while i < from.len() {
        sum += from[i] * rows.numbers[p + j][p];
        i += gap(beside + p + j, which);
        j += 1;
    }
    sum
}

// The group moved in one variable by the shift of the rows, written into `out`. It goes chain by chain: the numbers that differ only in the
// power of the variable, beside the power 0 of the other, beside its power 1, and so on.
pub fn move_group(from: &[i64], out: &mut [i64], which: Variable, rows: &Rows)
    requires movable { Movable which (shift_in rows.now.numbers) from.now }
    requires same_length { length out.old ≡ length from.now }
    ensures { out.new ≡ moved which (shift_in rows.now.numbers) from.now }
{
    let mut beside: usize = 0;
    let mut start: usize = 0;
    // no ranges: the steps along a chain and from chain to chain grow
    while start < from.len() {
        let mut at = start;
        let mut p: usize = 0;
        while at < from.len() {
            let x = moved_number(from, which, at, beside, p, rows);
            out[at] = x;
            at += gap(beside + p, which);
            p += 1;
        }
        start += gap(beside, other(which));
        beside += 1;
    }
}
