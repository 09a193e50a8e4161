// The weights of the coefficients, against the cap.
#![tactic(auto)]

ghost use Rattle.std.specs.Prelude.{◌≡◌, drop};
ghost use Rattle.polynomials.specs.Groups.{weight_of, total_weight};
ghost use Rattle.polynomials.specs.Limits.{against};
ghost use Rattle.layout.specs.Shape.{shape, shared, shared_at};
ghost use Rattle.layout.specs.Blocks.{led, groups};
ghost use Rattle.layout.specs.Sound.{within_cap};
ghost use Rattle.layout.specs.Reaches.{reaches_of};
ghost use Rattle.weights.specs.Ready.{high_in, AtLeastOne, Measured, GroupWeighable, Shareable, Checkable};

use layout::{Kind, Model, PIECES, REACHES_ROOM};
use polynomials::{CAP, Reach, add_row, weight_at};
use std::array;

// The reaches of the given sizes, each with the most that it multiplies within the cap.
fn all_reaches(sizes: [u64; REACHES_ROOM]) -> [Reach; REACHES_ROOM]
    requires { AtLeastOne sizes }
    ensures { Measured sizes result }
{
    array::from_fn(|k| Reach::of(sizes[k]))
}

// The weight of the group of a kind that starts at a place, at the reaches of the high piece, or nothing where it passes the cap. It is told by
// its start, since only the kind says where it ends.
fn weight_of(table: &[i64], at: usize, kind: Kind, reaches: [Reach; REACHES_ROOM]) -> Option<u64>
    requires { GroupWeighable table.now at kind reaches }
    ensures { result ≡ against (weight_of (led kind (drop at table.now)) (high_in reaches)) }
{
    let u = kind.u + 1;
    let v = kind.v + 1;
    let end = at + shapes::size(kind);
    weight_at(&table[at..end], kind.degree, reaches[u], reaches[v])
}

// The weight of the groups that count in both pieces, of the block that starts at a place, or nothing where it passes the cap.
fn shared(model: Model, table: &[i64], start: usize, reaches: [Reach; REACHES_ROOM]) -> Option<u64>
    requires { Shareable (shape model) table.now start reaches }
    ensures { result ≡ against (total_weight (groups (shared (shape model)) (drop (shared_at (shape model) start) table.now)) (high_in reaches)) }
{
    let own = shapes::kind(model, 0);
    let mut at = start + PIECES * shapes::size(own);
    let mut sum: u64 = 0;
    for group in PIECES..shapes::groups(model) {
        let kind = shapes::kind(model, group);
        let more = weight_of(table, at, kind, reaches)?;
        if more > CAP - sum {
            return None;
        }
        sum += more;
        at += shapes::size(kind);
    }
    Some(sum)
}

// Whether every coefficient's weight in both pieces is within the cap, at reaches of the given sizes. It goes over the blocks, the pieces and their
// terms, a row of these at a time, and leaves at the first block and piece whose weight passes. What the pieces share is weighed once.
// The requirement names this form, nested loops over these that are left by a label (docs/TRACE.md): so no chain, and no call of `weight_at` for a piece.
pub fn within_cap(model: Model, table: &[i64], sizes: [u64; REACHES_ROOM]) -> bool
    requires { Checkable (shape model) table.now sizes }
    ensures { result ≡ within_cap (shape model) table.now (reaches_of sizes) }
{
    let reaches = all_reaches(sizes);
    let own = shapes::kind(model, 0);
    let size = shapes::size(own);
    let degree = own.degree;
    let rows = degree + 1;
    let second = own.v + 1;
    let v = reaches[second];
    let blocks = shapes::blocks(model);
    let mut ok = true;
    'blocks: for block in 0..blocks {
        let start = shapes::start(model, block);
        let Some(both) = shared(model, table, start, reaches) else {
            ok = false;
            break 'blocks;
        };
        for piece in 0..PIECES {
            let u = reaches[piece];
            let from = start + size * piece;
            let to = from + size;
            let group = &table[from..to];
            let mut sum: u64 = 0;
            for row in 0..rows {
                let q = degree - row;
                let Some(more) = add_row(sum, group, degree, q, u, v) else {
                    ok = false;
                    break 'blocks;
                };
                sum = more;
            }
            if sum > CAP - both {
                ok = false;
                break 'blocks;
            }
        }
    }
    ok
}
