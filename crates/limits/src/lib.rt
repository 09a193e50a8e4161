// The limits of the readings: read from a table, tested, moved, and held against a reading.
#![tactic(auto)]

ghost use Rattle.std.specs.Prelude.{◌≡◌, true, not, cond, ◌&&◌, ◌≤◌, ◌<◌, max, ltb, pos, nat_abs, ◌+ℤ◌, length, take, get_or};
ghost use Rattle.std.specs.Int.Signed.{le_z};
ghost use Rattle.polynomials.specs.Sum.{listed};
ghost use Rattle.layout.specs.Shape.{shape, lowest_place};
ghost use Rattle.layout.specs.Numbers.{variables_room, limits_room};
ghost use Rattle.layout.specs.Limits.{lowest, highest, cut, fine_cut, is_fine_cut, longest_shift, all_in_range, cuts_agree, good};
ghost use Rattle.layout.specs.Blocks.{piece as piece_of};
ghost use Rattle.layout.specs.Sound.{span, reach};
ghost use Rattle.layout.specs.Reaches.{listed_reaches};
ghost use Rattle.layout.specs.Refusals.{outside, given_back, first, ◌when◌};
ghost use Rattle.layout.specs.Reading.{readings, inside};
ghost use Rattle.layout.specs.Moving.{owner, shift_at, moved_limit};
ghost use Rattle.limits.specs.Good.{variable_good, first_good, others_good};

use layout::refusals::Refused;
use layout::{HIGH, LIMITS_ROOM, LOW, Model, REACHES_ROOM, VARIABLES_ROOM};
use std::array;

// The greatest limit that is in range, and the least.
pub const MOST: i64 = 2000;

const LEAST: i64 = -MOST;

// The cut of variable 0 stands between its lowest and its highest reading, and its fine cut, where the model has one, behind them.
const CUT: usize = 1;

const FINE_CUT: usize = 3;

// How many thousandths a whole one has.
const THOUSAND: i64 = 1000;

// The first numbers of a model's table, as many as any model has limits: its own come first. What its methods ask, limits in range or good, stays in
// their clauses, as does that a variable is below five: each asks only what it needs, and a type of good limits would ask more of who wants a reach.
#[derive(Clone, Copy)]
pub struct Limits {
    pub model: Model,
    pub numbers: [i64; LIMITS_ROOM],
}

// The largest of 1 and the magnitudes of two limits.
fn span(a: i64, b: i64) -> u64
    ensures { result ≡ span a b }
{
    a.unsigned_abs().max(b.unsigned_abs()).max(1)
}

impl Limits {
    // The first numbers of a table.
    pub fn of(model: Model, table: &[i64]) -> Limits
        requires { limits_room ≤ length table.now }
        ensures { (result.model ≡ model) × (result.numbers ≡ take limits_room table.now) }
    {
        let numbers = array::from_fn(|k| table[k]);
        Limits { model, numbers }
    }

    // The limit at a place.
    fn at(self, place: usize) -> i64
        requires { place < limits_room }
        ensures { result ≡ get_or self.numbers place (pos 0) }
    {
        self.numbers[place]
    }

    // Where the limits of a variable stand that is not the first: its lowest, then its highest.
    fn start(self, variable: usize) -> usize
        requires { (0 < variable) × (variable < variables_room) }
        ensures { result ≡ lowest_place (shape self.model) variable }
    {
        2 * variable + 1 + shapes::fine_cuts(self.model)
    }

    // The lowest reading of a variable. Lowest and highest stay two: each is named where it is called, and an end as a parameter would be turned
    // back into one of them here.
    pub fn lowest(self, variable: usize) -> i64
        requires { variable < variables_room }
        ensures { result ≡ lowest (shape self.model) self.numbers variable }
    {
        if variable > 0 {
            return self.at(self.start(variable));
        }
        self.at(0)
    }

    // The highest reading of a variable.
    pub fn highest(self, variable: usize) -> i64
        requires { variable < variables_room }
        ensures { result ≡ highest (shape self.model) self.numbers variable }
    {
        if variable > 0 {
            return self.at(self.start(variable) + 1);
        }
        self.at(2)
    }

    // Whether the fine cut stands at a place.
    fn is_fine_cut(self, place: usize) -> bool
        ensures { result ≡ is_fine_cut (shape self.model) place }
    {
        shapes::has_fine_cut(self.model) && place == FINE_CUT
    }

    // The variable that the limit at a place belongs to: variable 0 up to the cut and for as many more as it has fine cuts, then two places for each.
    fn owner(self, place: usize) -> usize
        ensures { result ≡ owner (shape self.model) place }
    {
        let before = CUT + shapes::fine_cuts(self.model);
        if place <= before {
            return 0;
        }
        (place - before) / 2
    }

    // Whether the limits of a variable are in range and in order, or the model has no such variable.
    fn variable_good(self, variable: usize) -> bool
        requires { variable < variables_room }
        ensures { result ≡ cond (ltb variable (shape self.model).variables) (variable_good (shape self.model) self.numbers variable) true }
    {
        if variable >= shapes::variables(self.model) {
            return true;
        }
        let lowest = self.lowest(variable);
        let highest = self.highest(variable);
        (LEAST <= lowest) & (lowest <= highest) & (highest <= MOST)
    }

    // The same of variable 0, whose cut leaves it a low and a high piece: it lies between the ends, and is in range with them.
    fn first_good(self) -> bool
        ensures { result ≡ first_good (shape self.model) self.numbers }
    {
        let lowest = self.lowest(0);
        let cut = self.at(CUT);
        let highest = self.highest(0);
        (LEAST <= lowest) & (lowest <= cut) & (cut < highest) & (highest <= MOST)
    }

    // The same of every variable but the first.
    fn others_good(self) -> bool
        ensures { result ≡ others_good (shape self.model) self.numbers }
    {
        // by hand, and the tests of good limits joined by `&`: with `all` or a `for` a read takes 3750 instructions in place of 3718, which is past the
        // bar of docs/DESIGN-PASS.md, and with `&&` more still
        let mut variable: usize = 1;
        while variable < VARIABLES_ROOM {
            if !self.variable_good(variable) {
                return false;
            }
            variable += 1;
        }
        true
    }

    // Whether the cut is the fine cut divided by 1000 and rounded down.
    fn cuts_agree(self) -> bool
        requires { all_in_range (shape self.model) self.numbers ≡ true }
        ensures { result ≡ cuts_agree (shape self.model) self.numbers }
    {
        if !shapes::has_fine_cut(self.model) {
            return true;
        }
        let from = THOUSAND * self.at(CUT);
        let fine = self.at(FINE_CUT);
        (from <= fine) & (fine < from + THOUSAND)
    }

    // Whether the limits of every variable are in range and in order, and the two cuts agree.
    pub fn good(self) -> bool
        ensures { result ≡ good (shape self.model) self.numbers }
    {
        self.first_good() && self.others_good() && self.cuts_agree()
    }

    // A shift as it counts at a place: in thousandths at the fine cut.
    fn shift_at(self, place: usize, shift: i64) -> i64
        requires { nat_abs shift ≤ longest_shift }
        ensures { result ≡ shift_at (shape self.model) place shift }
    {
        if self.is_fine_cut(place) {
            return THOUSAND * shift;
        }
        shift
    }

    // The limit at a place once the datum of a variable is moved.
    fn moved_limit(self, variable: usize, shift: i64, place: usize) -> i64
        requires { (good (shape self.model) self.numbers ≡ true) × ((nat_abs shift ≤ longest_shift) × ((variable < (shape self.model).variables) × (place < limits_room))) }
        ensures { result ≡ moved_limit (shape self.model) variable shift self.numbers place }
    {
        let number = self.at(place);
        if self.owner(place) == variable {
            return number - self.shift_at(place, shift);
        }
        number
    }

    // The limits with each of one variable less `shift`, and the fine cut by its thousandths.
    pub fn moved(self, variable: usize, shift: i64) -> Limits
        requires { (good (shape self.model) self.numbers ≡ true) × ((nat_abs shift ≤ longest_shift) × (variable < (shape self.model).variables)) }
        ensures { (result.model ≡ self.model) × (result.numbers ≡ listed limits_room (moved_limit (shape self.model) variable shift self.numbers)) }
    {
        Limits {
            model: self.model,
            numbers: array::from_fn(|place| self.moved_limit(variable, shift, place)),
        }
    }

    // The cut of variable 0, or the number after it.
    fn cut_or_next(self, next: bool) -> i64
        requires { all_in_range (shape self.model) self.numbers ≡ true }
        ensures { result ≡ cond next (cut (shape self.model) self.numbers +ℤ pos 1) (cut (shape self.model) self.numbers) }
    {
        let cut = self.at(CUT);
        if next {
            return cut + 1;
        }
        cut
    }

    // How far a variable reaches in a piece: 0 is the low piece, any other number the high one. By a fine cut each piece has the cut and the number
    // after it; without one the cut is the last of the low piece.
    fn reach(self, piece: usize, variable: usize) -> u64
        requires { (all_in_range (shape self.model) self.numbers ≡ true) × (variable < variables_room) }
        ensures { result ≡ reach (shape self.model) self.numbers (piece_of piece) variable }
    {
        let fine = shapes::has_fine_cut(self.model);
        match (variable, piece) {
            (0, LOW) => span(self.lowest(0), self.cut_or_next(fine)),
            (0, _) => span(self.cut_or_next(!fine), self.highest(0)),
            _ => span(self.lowest(variable), self.highest(variable)),
        }
    }

    // The reaches: that of variable 0 in the low piece, then those of every variable in the high piece.
    pub fn reaches(self) -> [u64; REACHES_ROOM]
        requires { all_in_range (shape self.model) self.numbers ≡ true }
        ensures { result ≡ listed_reaches (reach (shape self.model) self.numbers) }
    {
        [
            self.reach(LOW, 0),
            self.reach(HIGH, 0),
            self.reach(HIGH, 1),
            self.reach(HIGH, 2),
            self.reach(HIGH, 3),
            self.reach(HIGH, 4),
        ]
    }

    // Whether a reading lies within the limits of a variable, ends included.
    pub fn inside(self, variable: usize, x: i64) -> bool
        requires { variable < variables_room }
        ensures { result ≡ (le_z (lowest (shape self.model) self.numbers variable) x && le_z x (highest (shape self.model) self.numbers variable)) }
    {
        self.lowest(variable) <= x && x <= self.highest(variable)
    }

    // Refuses the first reading outside its limits.
    pub fn outside(self, state: &[i64]) -> Result<(), Refused>
        requires { (shape self.model).variables ≤ length state.now }
        ensures { given_back result ≡ first (listed (shape self.model).variables (λ i. outside (shape self.model) i when not (inside (shape self.model) self.numbers (readings state.now) i))) }
    {
        // over the room, which is a constant, so that the compiler unrolls it
        for variable in 0..VARIABLES_ROOM {
            if variable < shapes::variables(self.model) && !self.inside(variable, state[variable]) {
                return Err(shapes::outside(self.model, variable));
            }
        }
        Ok(())
    }

    // The fine cut of variable 0, where the model has one. No Option: it is promised for every model, as the number at its place.
    pub fn fine_cut(self) -> i64
        ensures { result ≡ fine_cut (shape self.model) self.numbers }
    {
        self.at(FINE_CUT)
    }

    // The piece that a reading of variable 0 lies in.
    pub fn piece(self, x: i64) -> usize
        ensures { result ≡ cond (le_z x (cut (shape self.model) self.numbers)) 0 1 }
    {
        if x <= self.at(CUT) {
            return LOW;
        }
        HIGH
    }
}
