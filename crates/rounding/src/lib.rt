// What a float reading is as a whole number, and what a whole answer is as a float.
#![tactic(auto)]

ghost use Rattle.std.specs.Prelude.{◌≡◌, ◌+◌, ◌*◌, ◌≤◌, false, T, unsigned_abs};
ghost use Rattle.std.specs.Float.Ieee.Exact.{HasValue};
ghost use Rattle.std.specs.Float.Ieee.Positive.{num, den, positive};
ghost use Rattle.std.specs.Float.Ieee.Scale.{finite};
ghost use Rattle.whole.specs.Nearest.{nearest_up};
ghost use Rattle.rounding.specs.Reading.{whole_of, step_of};
ghost use Rattle.rounding.specs.Ready.{farthest_end, farthest_near, Near};
ghost use Rattle.rounding.specs.Answer.{float_of};

// Why a float reading has no whole number within its limits; one outside them is handed back as given.
#[derive(Clone, Copy)]
pub enum Unread {
    NotFinite,
    Outside(f64),
}

// No limit lies as far from 0 as these.
const MOST_NEAR: f64 = 2001.0;

const LEAST_NEAR: f64 = -MOST_NEAR;

// q and a half, which an f64 holds exactly.
fn half_above(q: u64) -> f64
    requires { q ≤ farthest_near }
    ensures { HasValue result false (2 * q + 1) 2 }
{
    ((2 * q + 1) as f64) * 0.5
}

// The whole number nearest to a, by the side of the half above its whole part; the half itself goes up.
fn nearest_magnitude(a: f64) -> u64
    requires above_zero { T (positive a) }
    requires near { num a ≤ farthest_near * den a }
    ensures { result ≡ nearest_up (den a) (num a) }
{
    let q = std::num::truncating_f64_to_u64(a);
    if a < half_above(q) { q } else { q + 1 }
}

// The whole number nearest to x, a half away from zero; for both zeros it is 0.
// Tried by std's `round`, which gives the same: 29 instructions more a reading. That x is near stays a clause, as in `thousandths`.
fn nearest_whole(x: f64) -> i64
    requires { Near x }
    ensures { result ≡ whole_of x }
{
    if x < 0.0 {
        -(nearest_magnitude(-x) as i64)
    } else if 0.0 < x {
        nearest_magnitude(x) as i64
    } else {
        0
    }
}

// Whether x lies between the infinities, as a NaN does not. The library's own test subtracts x from itself, by which an infinity raises the
// processor's flag for an invalid operation; these comparisons leave a host's flags as they are.
fn is_finite(x: f64) -> bool
    ensures { result ≡ finite x }
{
    f64::NEG_INFINITY < x && x < f64::INFINITY
}

// The nearest whole number to x where it lies within the limits; a float that is not near lies outside of any.
pub fn step_of(x: f64, lowest: i64, highest: i64) -> Result<i64, Unread>
    requires lowest_in_range { unsigned_abs lowest ≤ farthest_end }
    requires highest_in_range { unsigned_abs highest ≤ farthest_end }
    ensures { result ≡ step_of x lowest highest }
{
    if !is_finite(x) {
        return Err(Unread::NotFinite);
    }
    if x < LEAST_NEAR || MOST_NEAR < x {
        return Err(Unread::Outside(x));
    }
    let z = nearest_whole(x);
    if z < lowest || highest < z {
        return Err(Unread::Outside(x));
    }
    Ok(z)
}

// A whole number of 10^-17 as the nearest f64 whole number (half to even), divided once by 10^17. Zero gives positive zero.
pub fn answer(z: i64) -> f64
    ensures { result ≡ float_of z }
{
    std::num::nearest_i64_to_f64(z) / 1e17
}
