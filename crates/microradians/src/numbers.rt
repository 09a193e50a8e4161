// The numbers of the published table in units of 10^-9, made from it when the constants are built: nothing is left over by a division. Every group
// has room for degree 4; in those of degree 3 the last five are 0.
ghost use Rattle.std.specs.Prelude.{◌≡◌, ◌*◌, ◌<◌};
ghost use Rattle.layout.specs.Shape.{cumulus};
ghost use Rattle.microradians.specs.Groups.{group_count, fine_group};

use cumulus::PUBLISHED;
use layout::cumulus_one::{LIMITS, SIDE};

// Groups in a block: low and high in alpha and eta, then in beta and xi and in beta and zeta.
pub const GROUPS: usize = 4;

// The table has a number of total degree n times 1000^(4 - n), in units of 10^-17.
const OVER_0: i64 = 100_000_000;

const OVER_1: i64 = 100_000;

const OVER_2: i64 = 100;

const TIMES_3: i64 = 10;

const TIMES_4: i64 = 10_000;

// A group whose numbers start at a place behind the limits: those of degrees 0 to 3, and then what is given for degree 4.
macro_rules! group {
    ($at:expr, $($fourth:expr),*) => {
        [
            PUBLISHED[LIMITS + $at] / OVER_0,
            PUBLISHED[LIMITS + $at + 1] / OVER_1,
            PUBLISHED[LIMITS + $at + 2] / OVER_1,
            PUBLISHED[LIMITS + $at + 3] / OVER_2,
            PUBLISHED[LIMITS + $at + 4] / OVER_2,
            PUBLISHED[LIMITS + $at + 5] / OVER_2,
            PUBLISHED[LIMITS + $at + 6] * TIMES_3,
            PUBLISHED[LIMITS + $at + 7] * TIMES_3,
            PUBLISHED[LIMITS + $at + 8] * TIMES_3,
            PUBLISHED[LIMITS + $at + 9] * TIMES_3,
            $($fourth),*
        ]
    };
}

// In alpha and eta, of degree 3.
macro_rules! pitch {
    ($at:expr) => {
        group!($at, 0, 0, 0, 0, 0)
    };
}

// In beta and xi or zeta, of degree 4.
macro_rules! side {
    ($at:expr) => {
        group!(
            $at,
            PUBLISHED[LIMITS + $at + 10] * TIMES_4,
            PUBLISHED[LIMITS + $at + 11] * TIMES_4,
            PUBLISHED[LIMITS + $at + 12] * TIMES_4,
            PUBLISHED[LIMITS + $at + 13] * TIMES_4,
            PUBLISHED[LIMITS + $at + 14] * TIMES_4
        )
    };
}

// A constant for each group, since one of all of them is too large for the compiler.
const X_LOW: [i64; SIDE] = pitch!(0);

const X_HIGH: [i64; SIDE] = pitch!(10);

const X_XI: [i64; SIDE] = side!(20);

const X_ZETA: [i64; SIDE] = side!(35);

const Y_LOW: [i64; SIDE] = pitch!(50);

const Y_HIGH: [i64; SIDE] = pitch!(60);

const Y_XI: [i64; SIDE] = side!(70);

const Y_ZETA: [i64; SIDE] = side!(85);

const Z_LOW: [i64; SIDE] = pitch!(100);

const Z_HIGH: [i64; SIDE] = pitch!(110);

const Z_XI: [i64; SIDE] = side!(120);

const Z_ZETA: [i64; SIDE] = side!(135);

const L_LOW: [i64; SIDE] = pitch!(150);

const L_HIGH: [i64; SIDE] = pitch!(160);

const L_XI: [i64; SIDE] = side!(170);

const L_ZETA: [i64; SIDE] = side!(185);

const M_LOW: [i64; SIDE] = pitch!(200);

const M_HIGH: [i64; SIDE] = pitch!(210);

const M_XI: [i64; SIDE] = side!(220);

const M_ZETA: [i64; SIDE] = side!(235);

const N_LOW: [i64; SIDE] = pitch!(250);

const N_HIGH: [i64; SIDE] = pitch!(260);

const N_XI: [i64; SIDE] = side!(270);

const N_ZETA: [i64; SIDE] = side!(285);

// The numbers of a group, the groups counted through all blocks.
pub fn numbers_of(group: usize) -> [i64; SIDE]
    requires { group < group_count * cumulus.blocks }
    ensures { result ≡ fine_group group }
{
    match group {
        0 => X_LOW,
        1 => X_HIGH,
        2 => X_XI,
        3 => X_ZETA,
        4 => Y_LOW,
        5 => Y_HIGH,
        6 => Y_XI,
        7 => Y_ZETA,
        8 => Z_LOW,
        9 => Z_HIGH,
        10 => Z_XI,
        11 => Z_ZETA,
        12 => L_LOW,
        13 => L_HIGH,
        14 => L_XI,
        15 => L_ZETA,
        16 => M_LOW,
        17 => M_HIGH,
        18 => M_XI,
        19 => M_ZETA,
        20 => N_LOW,
        21 => N_HIGH,
        22 => N_XI,
        _ => N_ZETA,
    }
}
