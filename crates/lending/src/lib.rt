// The room that an operation is lent, filled with a pattern, with more of it on both sides; and what is said of it afterwards. The bytes
// of an answer are compared with those that the second program works out; proved is that everything stays within its room.
#![tactic(auto)]

ghost use Rattle.std.specs.Prelude.{◌≡◌, ◌≤◌, min, length};
ghost use Rattle.spaces.specs.Sizes.{space_room};

use layout::refusals::Refused;
use spaces::drawing::checksum;
use spaces::rooms::{ROOM, Space};
use texts::Answers;

const MARGIN: usize = 8;

const LENT: usize = MARGIN + ROOM + MARGIN;

// The numbers that a room may be lent for, each with its pattern.
pub trait Number: Copy + PartialEq {
    const PATTERN: Self;
}

impl Number for i64 {
    const PATTERN: i64 = 1234567890123456789;
}

impl Number for u64 {
    const PATTERN: u64 = 1234567890123456789;
}

// A room that is no Vec, since there is no heap.
#[derive(Drop)]
pub struct Lent<T> {
    numbers: [T; LENT],
    length: usize,
    ghost fits: { length ≤ space_room },
}

impl<T: Number> Lent<T> {
    // A room for so many numbers, but no more than a space has.
    pub fn new(length: usize) -> Lent<T>
        ensures { result.length ≡ min length space_room }
    {
        Lent {
            numbers: [T::PATTERN; LENT],
            length: length.min(ROOM),
        }
    }

    // What is lent. Its end is taken first, since nothing may be read of the struct once a part of it is lent out.
    pub fn part(&mut self) -> &mut [T]
        ensures { length result.now ≡ self.old.length }
    {
        let end = MARGIN + self.length;
        let numbers = &mut self.numbers;
        let all = &mut numbers[..];
        &mut all[MARGIN..end]
    }

    pub fn written(&self) -> &[T]
        ensures { length result.now ≡ self.now.length }
    {
        let all = &self.numbers[..];
        &all[MARGIN..MARGIN + self.length]
    }

    fn is_untouched(&self) -> bool {
        is_pattern(self.written())
    }

    fn is_kept(&self) -> bool {
        let all = &self.numbers[..];
        is_pattern(&all[..MARGIN]) && is_pattern(&all[MARGIN + self.length..])
    }
}

fn is_pattern<T: Number>(numbers: &[T]) -> bool {
    numbers.iter().all(|number| *number == T::PATTERN)
}

fn put_refused(refused: Refused, is_untouched: bool, out: &mut Answers) {
    let number = refused.number();
    let touched = if is_untouched { "untouched" } else { "touched" };
    out.put(format_args!("{number} {touched}"));
}

fn put_sides(is_kept: bool, out: &mut Answers) {
    if !is_kept {
        out.put(" outside");
    }
}

// Takes what was written over into its space, and says how much it is.
fn put_wrote(lent: &Lent<i64>, into: &mut Space, out: &mut Answers) {
    into.write(lent.written());
    let numbers = into.numbers();
    let count = numbers.len();
    let sum = checksum(numbers);
    out.put(format_args!("0 wrote {count} sum {sum}"));
}

// What is said of a written table.
pub fn settle(outcome: Result<(), Refused>, lent: &Lent<i64>, into: &mut Space, out: &mut Answers) {
    match outcome {
        Ok(()) => put_wrote(lent, into, out),
        Err(refused) => put_refused(refused, lent.is_untouched(), out),
    }
    put_sides(lent.is_kept(), out);
}

// What is said of many states: what each was given, and the values that were written.
pub fn settle_many(
    outcome: Result<(), Refused>,
    given: &Lent<u64>,
    lent: &Lent<i64>,
    into: &mut Space,
    out: &mut Answers,
) {
    match outcome {
        Ok(()) => {
            put_wrote(lent, into, out);
            out.put(" gave");
            for number in given.written() {
                out.put(format_args!(" {number}"));
            }
        }
        Err(refused) => put_refused(refused, given.is_untouched() && lent.is_untouched(), out),
    }
    put_sides(given.is_kept() && lent.is_kept(), out);
}

// What is said of values that were read.
pub fn put_read(outcome: Result<(), Refused>, lent: &Lent<i64>, out: &mut Answers) {
    match outcome {
        Ok(()) => {
            out.put("0 ");
            out.put_numbers(lent.written());
        }
        Err(refused) => put_refused(refused, lent.is_untouched(), out),
    }
    put_sides(lent.is_kept(), out);
}
