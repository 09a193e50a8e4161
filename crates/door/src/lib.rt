// Reading a table at a state of floats.
#![tactic(auto)]

ghost use Rattle.std.specs.Prelude.{◌≡◌, true, cond, ℕ, ◌<◌, position, IfOk, IfErr, MatchResult};
ghost use Rattle.polynomials.specs.Sum.{listed};
ghost use Rattle.polynomials.specs.Groups.{total};
ghost use Rattle.layout.specs.declared.Model.TheVariants.{Cumulus};
ghost use Rattle.layout.specs.Shape.{cumulus};
ghost use Rattle.layout.specs.Limits.{fine_cut, all_in_range};
ghost use Rattle.layout.specs.Blocks.{coefficient, piece as piece_of};
ghost use Rattle.layout.specs.Reading.{readings as wholes};
ghost use Rattle.rounding.specs.Answer.{float_of};
ghost use Rattle.rounding.specs.Ready.{Near};
ghost use Rattle.thousandths.specs.Thousandths.{at_most_thousandths};
ghost use Rattle.blocks.specs.Ready.{Valued};
ghost use Rattle.door.specs.Steps.{positive_zero, whole_in, is_not_finite, steps_of, Refuses, number_given, back_given};
ghost use Rattle.door.specs.Door.{floats, step_at, steps_number, reading_for, answer_with, refused_with, door_answer};

use layout::cumulus_one::{BLOCKS, VARIABLES};
use layout::refusals::{DONE, Refused};
use layout::{HIGH, LOW, Model};
use limits::Limits;
use rounding::Unread;
use tables::reading::write_values;
use tables::soundness::refusal_of;

// What the door gives back: its number, the reading where that is outside its limits and positive zero otherwise, and the floats of
// X, Y, Z, l, m and n. It stays a struct with a number, since C has it so (include/clochecloak.h).
#[repr(C)]
#[derive(Clone, Copy)]
pub struct Answer {
    pub number: u64,
    pub reading: f64,
    pub x: f64,
    pub y: f64,
    pub z: f64,
    pub l: f64,
    pub m: f64,
    pub n: f64,
}

// Why a state of floats is not answered: by the table's refusal, or by a reading, with the place of its variable.
#[derive(Clone, Copy)]
enum Unanswered {
    Table(Refused),
    Reading(usize, Unread),
}

// A refusal, with the reading that it hands back.
fn refused(why: Unanswered) -> Answer
    requires { Refuses why }
    ensures { result ≡ refused_with (number_given why) (back_given why) }
{
    let (number, reading) = match why {
        Unanswered::Table(refused) => (refused.number(), 0.0),
        Unanswered::Reading(i, Unread::NotFinite) => {
            let refused = Refused::NotFinite(shapes::angle(Model::Cumulus, i));
            (refused.number(), 0.0)
        }
        Unanswered::Reading(i, Unread::Outside(reading)) => {
            (shapes::outside(Model::Cumulus, i).number(), reading)
        }
    };
    Answer {
        number,
        reading,
        x: 0.0,
        y: 0.0,
        z: 0.0,
        l: 0.0,
        m: 0.0,
        n: 0.0,
    }
}

// The step of each reading.
fn steps_of(limits: Limits, readings: [f64; VARIABLES]) -> [Result<i64, Unread>; VARIABLES]
    requires model { limits.model ≡ Cumulus }
    requires in_range { all_in_range cumulus limits.numbers ≡ true }
    ensures { result ≡ listed cumulus.variables (step_at cumulus limits.numbers (floats readings)) }
{
    let mut steps = [Err(Unread::NotFinite); VARIABLES];
    for i in 0..VARIABLES {
        steps[i] = rounding::step_of(readings[i], limits.lowest(i), limits.highest(i));
    }
    steps
}

// The place of the first reading that is not finite.
fn first_not_finite(steps: &[Result<i64, Unread>]) -> Option<usize>
    ensures { result ≡ position is_not_finite steps.now }
{
    steps
        .iter()
        .position(|step| matches!(step, Err(Unread::NotFinite)))
}

// The whole readings; or the first one without: over all five, one that is not finite comes before one outside its limits.
fn wholes_in(steps: [Result<i64, Unread>; VARIABLES]) -> Result<[i64; VARIABLES], Unanswered>
    ensures ok { IfOk result (λ state. (steps_number cumulus (steps_of steps) ≡ 0) × (state ≡ listed cumulus.variables (λ i. whole_in (steps_of steps i)))) }
    ensures err { IfErr result (λ why. Refuses why × (steps_number cumulus (steps_of steps) ≡ number_given why) × (reading_for cumulus (steps_of steps) (number_given why) ≡ back_given why)) }
{
    if let Some(i) = first_not_finite(&steps) {
        return Err(Unanswered::Reading(i, Unread::NotFinite));
    }
    let mut state = [0; VARIABLES];
    for i in 0..VARIABLES {
        match steps[i] {
            Ok(whole) => state[i] = whole,
            Err(unread) => return Err(Unanswered::Reading(i, unread)),
        }
    }
    Ok(state)
}

// The piece that a reading belongs to as it was given, before it is rounded.
fn true_piece(limits: Limits, alpha: f64) -> usize
    requires model { limits.model ≡ Cumulus }
    requires near { Near alpha }
    ensures { result ≡ cond (at_most_thousandths alpha (fine_cut cumulus limits.numbers)) 0 1 }
{
    if thousandths::at_most(alpha, limits.fine_cut()) {
        LOW
    } else {
        HIGH
    }
}

// The six floats at whole readings, in the low piece (0) or the high one.
fn answered(table: &[i64], piece: usize, state: [i64; VARIABLES]) -> Answer
    requires { (b : ℕ) → b < cumulus.blocks → Valued cumulus table.now b piece state }
    ensures { result ≡ answer_with 0 positive_zero (λ b. float_of (total (coefficient cumulus table.now b (piece_of piece)) (wholes state))) }
{
    let mut values = [0; BLOCKS];
    write_values(Model::Cumulus, table, piece, state, &mut values);
    let [x, y, z, l, m, n] = values;
    Answer {
        number: DONE,
        reading: 0.0,
        x: rounding::answer(x),
        y: rounding::answer(y),
        z: rounding::answer(z),
        l: rounding::answer(l),
        m: rounding::answer(m),
        n: rounding::answer(n),
    }
}

// The answer at a state of floats, or why there is none.
fn read(table: &[i64], readings: [f64; VARIABLES]) -> Result<Answer, Unanswered>
    ensures { MatchResult result (λ answer. answer ≡ door_answer table.now (floats readings)) (λ why. Refuses why × (refused_with (number_given why) (back_given why) ≡ door_answer table.now (floats readings))) }
{
    if let Err(refused) = refusal_of(Model::Cumulus, table) {
        return Err(Unanswered::Table(refused));
    }
    let limits = Limits::of(Model::Cumulus, table);
    let state = wholes_in(steps_of(limits, readings))?;
    let piece = true_piece(limits, readings[0]);
    Ok(answered(table, piece, state))
}

// Reads the six coefficients of a table at a state of five floats in milliradians, each rounded to the nearest whole number
// (half away from zero); or refuses, with six zeros. Alpha as given decides which piece is read at the rounded readings.
pub fn read_floats(table: &[i64], readings: [f64; VARIABLES]) -> Answer
    ensures { result ≡ door_answer table.now (floats readings) }
{
    match read(table, readings) {
        Ok(answer) => answer,
        Err(why) => refused(why),
    }
}
