// Floats told by their bit patterns: the readings of a read with floats, and its answer.
#![tactic(auto)]

use door::Answer;
use layout::cumulus_one::VARIABLES;
use texts::Answers;

const SIGN: u64 = 0x8000_0000_0000_0000;

const INFINITY: u64 = 0x7ff0_0000_0000_0000;

const NAN: u64 = 0x7ff8_0000_0000_0000;

// Every NaN's pattern gives the same NaN: the language knows one.
#[tactic(auto, using(std::proofs::lemmas::Float::not_nan_f64_bits))]
fn float_of(pattern: u64) -> f64 {
    if INFINITY < pattern % SIGN {
        return f64::NAN;
    }
    f64::from_bits(pattern)
}

pub fn floats_of(patterns: [u64; VARIABLES]) -> [f64; VARIABLES] {
    patterns.map(float_of)
}

fn bits_of(x: f64) -> u64 {
    if x.is_nan() { NAN } else { x.to_bits() }
}

pub fn put_answer(answer: Answer, out: &mut Answers) {
    out.put(answer.number);
    for x in [
        answer.reading,
        answer.x,
        answer.y,
        answer.z,
        answer.l,
        answer.m,
        answer.n,
    ] {
        out.put(format_args!(" {:x}", bits_of(x)));
    }
}
