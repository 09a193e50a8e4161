// The numbers that the words of a line say.
#![tactic(auto)]

ghost use Rattle.std.specs.Prelude.{◌≡◌, ◌<◌};
ghost use Rattle.numbers.specs.Numbers.{digit_of, digits, signed_of, is_number, natural_at, bits_at, signed_at};

use words::word_at;

// What a word is read as.
#[derive(Clone, Copy)]
pub enum Kind {
    Natural,
    Signed,
    Bits,
}

// What a byte is worth as a digit of a base.
fn digit_of(byte: u8, base: u64) -> Option<u64>
    ensures { result ≡ digit_of base byte }
{
    let digit = match byte {
        b'0'..=b'9' => byte - b'0',
        b'a'..=b'f' => byte - b'a' + 10,
        _ => return None,
    };
    let digit = u64::from(digit);
    (digit < base).then_some(digit)
}

// The number that one or more digits of a base say.
fn digits(word: &[u8], base: u64) -> Option<u64>
    requires { 0 < base }
    ensures { result ≡ digits base u64.MAX word.now }
{
    if word.is_empty() {
        return None;
    }
    let mut value = 0u64;
    for byte in word {
        let digit = digit_of(*byte, base)?;
        value = value.checked_mul(base)?.checked_add(digit)?;
    }
    Some(value)
}

// The number that decimal digits say, with a minus in front where it is negative.
fn signed(word: &[u8]) -> Option<i64>
    ensures { result ≡ signed_of word.now }
{
    match word.strip_prefix(b"-") {
        Some(magnitude) => 0i64.checked_sub_unsigned(digits(magnitude, 10)?),
        None => i64::try_from(digits(word, 10)?).ok(),
    }
}

// Whether a word says a number of a kind.
pub fn is_number(line: &[u8], k: usize, kind: Kind) -> bool
    ensures { result ≡ is_number line.now k kind }
{
    let Some(word) = word_at(line, k) else {
        return false;
    };
    match kind {
        Kind::Natural => digits(word, 10).is_some(),
        Kind::Signed => signed(word).is_some(),
        Kind::Bits => digits(word, 16).is_some(),
    }
}

// The number of a word; 0 where there is none or it says none of its kind. No Option: the contracts
// say 0, and the words of a command are tried before. The base stays in the names, and the place a parameter:
// a base, or a word looked up and perhaps absent, would stand at each call.
pub fn natural_at(line: &[u8], k: usize) -> u64
    ensures { result ≡ natural_at line.now k }
{
    word_at(line, k)
        .and_then(|word| digits(word, 10))
        .unwrap_or(0)
}

pub fn bits_at(line: &[u8], k: usize) -> u64
    ensures { result ≡ bits_at line.now k }
{
    word_at(line, k)
        .and_then(|word| digits(word, 16))
        .unwrap_or(0)
}

pub fn signed_at(line: &[u8], k: usize) -> i64
    ensures { result ≡ signed_at line.now k }
{
    word_at(line, k).and_then(signed).unwrap_or(0)
}
