#![tactic(auto)]

ghost use Rattle.std.specs.Prelude.{◌≡◌, ◌+◌, ◌/◌, ◌^◌, ◌<◌, pos, nat_abs, ◌<ℤ◌};
ghost use Rattle.whole.specs.Nearest.{nearest_away};

// The distance of `x` from 0, at the least i64 too, whose negation does not fit an i64. It is the library's, under a name that promises are made of.
pub fn magnitude(x: i64) -> u64
    ensures { result ≡ nat_abs x }
{
    x.unsigned_abs()
}

// z / m to the nearest whole number, a half away from zero: half of m is put on, away from zero, and the division cuts towards it.
pub fn nearest_away(z: i64, m: i64) -> i64
    requires { (pos 0 <ℤ m) × (nat_abs z + nat_abs m / 2 < 2 ^ 63) }
    ensures { result ≡ nearest_away (nat_abs m) z }
{
    let half = m / 2;
    if z < 0 {
        return (z - half) / m;
    }
    (z + half) / m
}
