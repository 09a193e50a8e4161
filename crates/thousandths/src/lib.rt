// Whether a float is at most a number of thousandths, as exact numbers. Whole numbers decide, for a product or a quotient of floats is rounded.
// That a float is near stays a clause: a type of near floats would be made and opened for each reading.
#![tactic(auto)]

ghost use Rattle.std.specs.Prelude.{◌≡◌, ◌^◌};
ghost use Rattle.whole.specs.Down.{rounded_down};
ghost use Rattle.rounding.specs.Ready.{Near};
ghost use Rattle.thousandths.specs.Thousandths.{at_most_thousandths};
ghost use Rattle.thousandths.specs.Steps.{IsParts, thousandths_up};

// An f64 keeps 52 digits in its lowest bits, the exponent's field in the 11 above them, and the sign in the highest. These are 2^52 and 2^63.
const DIGITS: u64 = 4503599627370496;

const SIGN: u64 = 9223372036854775808;

// A magnitude: digits / 2^shift.
#[derive(Clone, Copy)]
struct Parts {
    digits: u64,
    shift: u64,
}

// The magnitude of x, from its bits. Where the exponent's field is not 0, a digit 1 stands before those that are kept, and the unit is 2^(field - 1075).
fn parts_of(x: f64) -> Parts
    requires { Near x }
    ensures { IsParts x result.digits result.shift }
{
    let bits = f64::to_bits(x);
    let digits = bits % DIGITS;
    let field = bits % SIGN / DIGITS;
    if field == 0 {
        Parts {
            digits,
            shift: 1074,
        }
    } else {
        Parts {
            digits: DIGITS + digits,
            shift: 1075 - field,
        }
    }
}

// z / 2^shift rounded down. From 63 on, a shift leaves of an i64 only its sign.
fn shifted_down(z: i64, shift: u64) -> i64
    ensures { result ≡ rounded_down (2 ^ shift) z }
{
    z >> shift.min(63)
}

// The least whole number of thousandths that x is at most: 1000 x rounded up. Below zero the magnitude is rounded down for that, as a shift does.
// From zero on it is rounded up: n / 2^shift rounded up is one more than (n - 1) / 2^shift rounded down, at n = 0 too.
fn thousandths_up(x: f64) -> i64
    requires { Near x }
    ensures { result ≡ thousandths_up x }
{
    let p = parts_of(x);
    let n = (1000 * p.digits) as i64;
    if x < 0.0 {
        -shifted_down(n, p.shift)
    } else {
        shifted_down(n - 1, p.shift) + 1
    }
}

// Whether x is at most so many thousandths, as exact numbers: 1000 x is at most a whole number exactly where it is so when rounded up.
pub fn at_most(x: f64, thousandths: i64) -> bool
    requires { Near x }
    ensures { result ≡ at_most_thousandths x thousandths }
{
    thousandths_up(x) <= thousandths
}
