// Printing whole numbers in decimal, into an output that the caller lends. An output and a place in it are two parameters: as one struct of
// both, the seven numbers of an answer took 600 instructions in place of 505, so that is kept. Below, `505` is this count.
// That a part is below 10^8, and that there is room for its digits, are clauses for the same reason. The library's printing does not say which bytes.
#![tactic(auto)]

ghost use Rattle.std.specs.Prelude.{◌≡◌, [], ◌∷◌, ◌++◌, ℕ, ◌+◌, ◌*◌, ◌/◌, ◌%◌, ◌<◌, ◌≤◌, length};
ghost use Rattle.std.proofs.lemmas.List.Edits.{sets};
ghost use Rattle.printing.specs.Groups.{four, eight, pairs, Paired, packed, unpacked};
ghost use Rattle.printing.specs.Spell.{decimal, spell, longest_number, written};

// How many bytes a number takes at most: the least i64 has a minus and 19 digits, the greatest u64 has 20.
pub const LONGEST_NUMBER: usize = 20;

// The least number of eight digits.
const LEAST_OF_EIGHT: u64 = 10_000_000;

// The four pairs of digits of a number of eight, 16 bits apart, the first lowest. For these numbers a ten-thousandth is 109,951,163 / 2^40. What it
// leaves is put 32 bits above it: x + 2^32(n - 10,000x) = 2^32 n - 42,949,672,959,999x. Two numbers below 10,000 that are 32 bits apart are divided
// by 100 at once in the same way: for these a hundredth is 5,243 / 2^19, and the mask drops what the upper one leaves below.
fn eight_pairs(n: u64) -> u64
    requires { n < 100000000 }
    ensures { result ≡ pairs (n / 10000) + 4294967296 * pairs (n % 10000) }
{
    let upper = n * 109_951_163 / 0x100_0000_0000;
    let fours = 0x1_0000_0000 * n - 42_949_672_959_999 * upper;
    let hundreds = fours * 5_243 / 524_288 & 0x7f_0000_007f;
    65_536 * fours - 6_553_599 * hundreds
}

// Pairs of digits, 16 bits apart, as the bytes of one word, the first lowest: all are divided by ten at once. For these a tenth is
// 103 / 2^10. The two bytes of a pair, whose number is 10a + b, are a + 256b = 256(10a + b) - 2559a.
fn digit_bytes(pairs: u64) -> u64
    requires { (x : ℕ) × (y : ℕ) × Paired pairs x y }
    ensures { (x y : ℕ) → Paired pairs x y → result ≡ packed (four x ++ four y) }
{
    let tens = pairs * 103 / 1_024 & 0x000f_000f_000f_000f;
    256 * pairs - 2_559 * tens + 0x3030_3030_3030_3030
}

// The bytes of a word, the lowest first, from the place `at` on. Where their number is known these become one store. An array of bytes that is
// copied takes 583 in place of 505, since the compiler then works out two words at once in vectors.
fn put_bytes(word: u64, count: usize, out: &mut [u8], at: usize)
    requires { at + count ≤ length out.old }
    ensures { out.new ≡ sets out.old at (unpacked count word) }
{
    let mut rest = word;
    for i in at..at + count {
        out[i] = (rest % 256) as u8;
        rest /= 256;
    }
}

// Eight digits from the place `at` on, zeros in front too. Four and two digits have functions of their own: one for all is called and not laid
// into its callers, which takes 603 or more in place of 505.
fn put_eight(n: u64, out: &mut [u8], at: usize)
    requires { (n < 100000000) × (at + 8 ≤ length out.old) }
    ensures { out.new ≡ sets out.old at (eight n) }
{
    put_bytes(digit_bytes(eight_pairs(n)), 8, out, at);
}

// Four digits from the place `at` on, zeros in front too.
fn put_four(n: u64, out: &mut [u8], at: usize)
    requires { (n < 10000) × (at + 4 ≤ length out.old) }
    ensures { out.new ≡ sets out.old at (four n) }
{
    put_bytes(digit_bytes(n / 100 + 65_536 * (n % 100)), 4, out, at);
}

// Two digits from the place `at` on, a zero in front too.
fn put_two(n: u64, out: &mut [u8], at: usize)
    requires { (n < 100) × (at + 2 ≤ length out.old) }
    ensures { out.new ≡ sets out.old at ((48 + n / 10) ∷ (48 + n % 10) ∷ []) }
{
    out[at] = b'0' + (n / 10) as u8;
    out[at + 1] = b'0' + (n % 10) as u8;
}

// The digits of a number of at most four from the place `at` on; gives the place behind them.
pub fn put_few(n: u64, out: &mut [u8], at: usize) -> usize
    requires { (n < 10000) × (at + length (decimal n) ≤ length out.old) }
    ensures place { result ≡ at + length (decimal n) }
    ensures output { out.new ≡ sets out.old at (decimal n) }
{
    if n < 10 {
        out[at] = b'0' + n as u8;
        return at + 1;
    }
    if n < 100 {
        put_two(n, out, at);
        return at + 2;
    }
    if n < 1_000 {
        out[at] = b'0' + (n / 100) as u8;
        put_two(n % 100, out, at + 1);
        return at + 3;
    }
    put_four(n, out, at);
    at + 4
}

// The digits of a number of at most eight from the place `at` on; gives the place behind them. Most have eight.
fn put_short(n: u64, out: &mut [u8], at: usize) -> usize
    requires { (n < 100000000) × (at + length (decimal n) ≤ length out.old) }
    ensures place { result ≡ at + length (decimal n) }
    ensures output { out.new ≡ sets out.old at (decimal n) }
{
    if n >= LEAST_OF_EIGHT {
        put_eight(n, out, at);
        return at + 8;
    }
    if n < 10_000 {
        return put_few(n, out, at);
    }
    let i = put_few(n / 10_000, out, at);
    put_four(n % 10_000, out, i);
    i + 4
}

// The digits of a number from the place `at` on; gives the place behind them. The first group is as long as it is, so that no
// digit has to be counted, and each further group has eight digits. The first is put in one place: a way out for numbers of one group takes
// 543 in place of 505.
pub fn put_digits(n: u64, out: &mut [u8], at: usize) -> usize
    requires { at + length (decimal n) ≤ length out.old }
    ensures place { result ≡ at + length (decimal n) }
    ensures output { out.new ≡ written out.old at (decimal n) }
{
    let high = n / 100_000_000;
    if high >= 100_000_000 {
        let highest = high / 100_000_000;
        let i = put_few(highest, out, at);
        put_eight(high - 100_000_000 * highest, out, i);
        put_eight(n - 100_000_000 * high, out, i + 8);
        return i + 16;
    }
    let first = if high > 0 { high } else { n };
    let i = put_short(first, out, at);
    if high > 0 {
        put_eight(n - 100_000_000 * high, out, i);
        return i + 8;
    }
    i
}

// A number from the place `at` on; gives the place behind it. The digits are put in one place for either sign, so that the code for them is
// there once. Its magnitude taken in one place as well takes 521 in place of 505.
pub fn put_number(x: i64, out: &mut [u8], at: usize) -> usize
    requires { at + longest_number ≤ length out.old }
    ensures place { result ≡ at + length (spell x) }
    ensures output { out.new ≡ written out.old at (spell x) }
{
    let (n, start) = if x < 0 {
        out[at] = b'-';
        (x.unsigned_abs(), at + 1)
    } else {
        (x as u64, at)
    };
    put_digits(n, out, start)
}
