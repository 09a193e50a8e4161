// Drawn numbers and checksums: both step a 64-bit number by xorshift.

// 2^63.
const SIGN: u64 = 9223372036854775808;

fn stepped(s: u64) -> u64 {
    let a = s ^ (s << 13);
    let b = a ^ (a >> 7);
    b ^ (b << 17)
}

pub fn checksum(numbers: &[i64]) -> u64 {
    numbers.iter().fold(
        1,
        |sum, number| stepped(sum).wrapping_add(number.cast_unsigned()),
    )
}

// With a size of 0 the number is 0.
fn drawn(s: u64, size: u64) -> i64 {
    let number = (s % SIGN).checked_rem(size).unwrap_or(0);
    if s < SIGN {
        return number.cast_signed();
    }
    number.wrapping_neg().cast_signed()
}

// Draws numbers, each so many places behind the one before; with a step of 0 the first alone.
pub fn draw(numbers: &mut [i64], step: usize, size: u64, seed: u64) {
    let step = if step == 0 { usize::MAX } else { step };
    let mut s = seed;
    for number in numbers.iter_mut().step_by(step) {
        s = stepped(s);
        *number = drawn(s, size);
    }
}
