// Answering lines of readings: for each line the number given back and the six coefficients of a table, in decimal. An output and a place in it are
// two parameters, as in `printing`.
#![tactic(auto)]

ghost use Rattle.std.specs.Prelude.{◌≡◌, ◌+◌, ◌<◌, ◌≤◌, length};
ghost use Rattle.printing.specs.Spell.{written};
ghost use Rattle.answers.specs.Answers.{spaced, numbered, line_answer, longest_values, longest};
ghost use Rattle.layout.specs.Shape.{cumulus};
ghost use Rattle.layout.specs.Refusals.{given_back};
ghost use Rattle.tables.specs.Ready.{table_number};
ghost use Rattle.answers.specs.Reading.{fresh, last_in, Feeding, LinePart, Taking, Taken};

use layout::Model;
use layout::cumulus_one::{BLOCKS, VARIABLES};
use layout::refusals::{Refused, given_back};
use lines::State;
use printing::{LONGEST_NUMBER, put_few, put_number};
use tables::reading::read_known;
use tables::soundness::refusal_of;

// How many bytes the coefficients take at most, each behind a space.
const LONGEST_VALUES: usize = BLOCKS * (1 + LONGEST_NUMBER);

// And a whole answer: the number given back, the coefficients and the newline.
pub const LONGEST: usize = LONGEST_NUMBER + LONGEST_VALUES + 1;

// The number given back for a line that is no five numbers, by which no operation refuses, so that it is no `Refused`.
const MALFORMED: u64 = 31;

// What is known of the input from its bytes so far: the line that has not ended, and whether it has a byte. This is no Option, since `feed` and
// `finish` take a reading with any line beside either answer.
#[derive(Clone, Copy)]
pub struct Reading {
    pub line: State,
    pub begun: bool,
}

// The line after some bytes of the input that are no newline, and the place behind them.
#[derive(Clone, Copy)]
pub struct Part {
    pub line: State,
    pub end: usize,
}

// The reading after the first `taken` bytes of a piece, and how many bytes of the output hold their answers.
#[derive(Clone, Copy)]
pub struct Fed {
    pub reading: Reading,
    pub taken: usize,
    pub put: usize,
}

// A table, and whether it is refused by itself, which is worked out once for all lines.
#[derive(Clone, Copy)]
struct Known<'a> {
    table: &'a [i64],
    outcome: Result<(), Refused>,
    ghost own: { given_back outcome ≡ table_number cumulus table.now },
}

// Six coefficients, each behind a space, from the place `at` on; gives the place behind them.
fn put_values(values: [i64; BLOCKS], out: &mut [u8], at: usize) -> usize
    requires { at + longest_values ≤ length out.old }
    ensures place { result ≡ at + length (spaced values) }
    ensures output { out.new ≡ written out.old at (spaced values) }
    ensures room { result ≤ at + longest_values }
{
    let mut place = at;
    for value in values {
        out[place] = b' ';
        place = put_number(value, out, place + 1);
    }
    place
}

// A whole answer with its newline. The number given back has few digits.
fn put_answer(number: u64, values: [i64; BLOCKS], out: &mut [u8], at: usize) -> usize
    requires { (number < 10000) × (at + longest ≤ length out.old) }
    ensures place { result ≡ at + length (numbered number values) }
    ensures output { out.new ≡ written out.old at (numbered number values) }
    ensures room { result ≤ at + longest }
{
    let behind = put_few(number, out, at);
    let end = put_values(values, out, behind);
    out[end] = b'\n';
    end + 1
}

impl Reading {
    // Nothing is read.
    pub fn fresh() -> Reading
        ensures { result ≡ fresh }
    {
        Reading {
            line: State::start(),
            begun: false,
        }
    }
}

// The line after the bytes from the place `from` up to the next newline, or up to the end of the input.
fn step_line(line: State, input: &[u8], from: usize) -> Part
    requires { from ≤ length input.now }
    ensures { LinePart line input.now from result }
{
    let mut state = line;
    for end in from..input.len() {
        let byte = input[end];
        if byte == b'\n' {
            return Part { line: state, end };
        }
        state = state.step(byte);
    }
    Part {
        line: state,
        end: input.len(),
    }
}

impl Known<'_> {
    // The answer to a line, from the place `at` on; gives the place behind it.
    fn put_line(&self, line: Option<[i64; VARIABLES]>, out: &mut [u8], at: usize) -> usize
        requires { at + longest ≤ length out.old }
        ensures place { result ≡ at + length (line_answer self.now.table.now line) }
        ensures output { out.new ≡ written out.old at (line_answer self.now.table.now line) }
        ensures room { result ≤ at + longest }
    {
        let mut values = [0i64; BLOCKS];
        let number = match line {
            None => MALFORMED,
            Some(state) => {
                let outcome = read_known(
                    Model::Cumulus,
                    self.table,
                    self.outcome,
                    state,
                    &mut values,
                );
                given_back(outcome)
            }
        };
        put_answer(number, values, out, at)
    }

    // Takes the input on up to the end of a line, which is answered behind the answers before it, or up to its own end.
    fn take_line(&self, fed: Fed, input: &[u8], out: &mut [u8]) -> Fed
        requires { Taking input.now fed.taken out.old fed.put }
        ensures { Taken self.now.table.now fed.reading input.now fed.taken out.old out.new fed.put result }
    {
        let Part { line, end } = step_line(fed.reading.line, input, fed.taken);
        if end >= input.len() {
            return Fed {
                reading: Reading { line, begun: true },
                taken: end,
                put: fed.put,
            };
        }
        let put = self.put_line(line.finish(), out, fed.put);
        Fed {
            reading: Reading::fresh(),
            taken: end + 1,
            put,
        }
    }
}

// Takes a piece of the input, of any size, as far as the output has room for an answer more, and writes the answers to the lines that end in it.
pub fn feed(table: &[i64], reading: Reading, input: &[u8], out: &mut [u8]) -> Fed
    ensures { Feeding table.now reading input.now out.old out.new result }
{
    let outcome = refusal_of(Model::Cumulus, table);
    let known = Known { table, outcome };
    let mut fed = Fed {
        reading,
        taken: 0,
        put: 0,
    };
    while fed.taken < input.len() && out.len() - fed.put >= LONGEST {
        fed = known.take_line(fed, input, out);
    }
    fed
}

// At the end of the input: writes the answer to a last line that no newline ends, and gives its length. Writes nothing where there is no
// such line, or no room for the longest answer.
pub fn finish(table: &[i64], reading: Reading, out: &mut [u8]) -> usize
    ensures count { result ≡ length (last_in table.now reading (length out.old)) }
    ensures output { out.new ≡ written out.old 0 (last_in table.now reading (length out.old)) }
    ensures room { result ≤ length out.old }
{
    if out.len() < LONGEST || !reading.begun {
        return 0;
    }
    let outcome = refusal_of(Model::Cumulus, table);
    Known { table, outcome }.put_line(reading.line.finish(), out, 0)
}
