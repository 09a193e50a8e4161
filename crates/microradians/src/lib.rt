// The published table read in microradians: fixed point in units of 10^-9, one rounding for each multiplication.
#![tactic(auto)]

mod numbers;

ghost use Rattle.std.specs.Prelude.{◌≡◌, ◌<◌, ◌≤◌, nat_abs, length};
ghost use Rattle.polynomials.specs.Sum.{listed};
ghost use Rattle.layout.specs.Shape.{cumulus};
ghost use Rattle.layout.specs.Blocks.{piece as piece_of};
ghost use Rattle.layout.specs.Reading.{readings};
ghost use Rattle.layout.specs.Refusals.{given_back};
ghost use Rattle.cumulus_page.specs.Model.{coefficient_at};
ghost use Rattle.microradians.specs.Fixed.{◌⊛◌};
ghost use Rattle.microradians.specs.Answer.{answer_in, fine_number, fine_output};
ghost use Rattle.microradians.specs.Ready.{most, Near, AllNear};

use cumulus::PUBLISHED;
use layout::Model;
use layout::cumulus_one::{BLOCKS, LIMITS, PITCH_DEGREE, SIDE_DEGREE, VARIABLES};
use layout::refusals::Refused;
use limits::Limits;
use numbers::{GROUPS, numbers_of};
use polynomials::{Product, group_at};

// Microradians in a radian, and in a milliradian.
const RADIAN: i64 = 1_000_000;

const MILLIRADIAN: i64 = 1_000;

// Of the groups of a block, those in beta come behind the low and the high one.
const XI: usize = 2;

const ZETA: usize = 3;

// The envelope in microradians, as a table has its limits: its cut is the fine cut in milliradians.
const FINE_ENVELOPE: [i64; LIMITS] = [
    MILLIRADIAN * PUBLISHED[0],
    PUBLISHED[3],
    MILLIRADIAN * PUBLISHED[2],
    MILLIRADIAN * PUBLISHED[3],
    MILLIRADIAN * PUBLISHED[4],
    MILLIRADIAN * PUBLISHED[5],
    MILLIRADIAN * PUBLISHED[6],
    MILLIRADIAN * PUBLISHED[7],
    MILLIRADIAN * PUBLISHED[8],
    MILLIRADIAN * PUBLISHED[9],
    MILLIRADIAN * PUBLISHED[10],
    MILLIRADIAN * PUBLISHED[11],
];

// The product in fixed point: to the nearest whole number, a half away from zero.
struct Rounded;

impl Product for Rounded {
    ghost times = { ◌⊛◌ };

    ghost can_times = { λ a r. (nat_abs a ≤ most) × Near r };

    fn times(a: i64, r: i64) -> i64 {
        let product = a * r;
        whole::nearest_away(product, RADIAN)
    }
}

// A coefficient, by its block, in the low piece (0) or the high one.
fn coefficient_at(block: usize, piece: usize, state: [i64; VARIABLES]) -> i64
    requires { (block < cumulus.blocks) × ((piece < 2) × AllNear (readings state)) }
    ensures { result ≡ answer_in (piece_of piece) (coefficient_at block) (readings state) }
{
    let first = GROUPS * block;
    let pitch = numbers_of(first + piece);
    let aileron = numbers_of(first + XI);
    let rudder = numbers_of(first + ZETA);
    group_at::<Rounded>(&pitch, PITCH_DEGREE, state[0], state[3])
        + (group_at::<Rounded>(&aileron, SIDE_DEGREE, state[1], state[2])
            + group_at::<Rounded>(&rudder, SIDE_DEGREE, state[1], state[4]))
}

// Every coefficient at the state, in the low piece (0) or the high one.
fn write_answers(piece: usize, state: [i64; VARIABLES], out: &mut [i64])
    requires { (piece < 2) × (AllNear (readings state) × (length out.old ≡ cumulus.blocks)) }
    ensures { out.new ≡ listed cumulus.blocks (λ b. answer_in (piece_of piece) (coefficient_at b) (readings state)) }
{
    for (block, x) in out.iter_mut().enumerate() {
        *x = coefficient_at(block, piece, state);
    }
}

// Reads the six coefficients of the published table at a state of five whole microradians into `out`, in units of 10^-9, or refuses and leaves `out`
// as it was.
pub fn read(state: [i64; VARIABLES], out: &mut [i64]) -> Result<(), Refused>
    ensures number { given_back result ≡ fine_number (readings state) out.old }
    ensures output { out.new ≡ fine_output (readings state) out.old }
{
    if out.len() != BLOCKS {
        return Err(Refused::WrongOutput);
    }
    let limits = Limits {
        model: Model::Cumulus,
        numbers: FINE_ENVELOPE,
    };
    limits.outside(&state)?;
    let piece = limits.piece(state[0]);
    write_answers(piece, state, out);
    Ok(())
}
