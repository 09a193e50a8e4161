// Reading a line of five whole numbers, byte by byte: what is known of the bytes so far is one value, so a line may come in pieces of any size.
#![tactic(auto)]

ghost use Rattle.std.specs.Prelude.{◌≡◌, ◌≤◌};
ghost use Rattle.lines.specs.State.{start, number_of, refused, ended, minus, digit, stepped, finished};

// The digits of a word in one number: k of them with the value v are 2^16 * 10^k + v. A digit more is a product and a sum, one test says whether
// there are so many, and the value is the lowest 16 bits.
const NO_DIGIT: u64 = 65_536;

const ONE_DIGIT: u64 = 10 * NO_DIGIT;

const FOUR_DIGITS: u64 = 10_000 * NO_DIGIT;

// What is known of a line from the bytes so far. Its fields are whole numbers of 64 bits, `minus` too: with a bool and narrow fields a line took an
// eighth more instructions (docs/TRACE.md, 18.9). A line that is refused has five words and is no None, so that a step need not ask.
#[derive(Clone, Copy)]
pub struct State {
    // How many words have ended; five where no bytes that follow make it a line of five numbers.
    pub words: u64,
    // The word that has not ended: 1 where it has a minus, and its digits.
    pub minus: u64,
    pub digits: u64,
    // The numbers of the last four words that have ended.
    pub alpha: i64,
    pub beta: i64,
    pub xi: i64,
    pub eta: i64,
}

impl State {
    // Nothing is read.
    pub fn start() -> State
        ensures { result ≡ start }
    {
        State {
            words: 0,
            minus: 0,
            digits: NO_DIGIT,
            alpha: 0,
            beta: 0,
            xi: 0,
            eta: 0,
        }
    }

    // The number of the word that has not ended.
    fn number(self) -> i64
        ensures { result ≡ number_of self.minus self.digits }
    {
        let plain = (self.digits % NO_DIGIT) as i64;
        if self.minus > 0 { -plain } else { plain }
    }

    fn refused(mut self) -> State
        ensures { result ≡ refused self }
    {
        self.words = 5;
        self
    }

    // After a space: a word has ended, and it has a digit and is not the fifth.
    fn ended(self) -> State
        ensures { result ≡ ended self }
    {
        if self.digits < ONE_DIGIT || self.words >= 4 {
            return self.refused();
        }
        State {
            words: self.words + 1,
            minus: 0,
            digits: NO_DIGIT,
            alpha: self.beta,
            beta: self.xi,
            xi: self.eta,
            eta: self.number(),
        }
    }

    // After a minus, which stands before everything else of a word.
    fn minus(mut self) -> State
        ensures { result ≡ minus self }
    {
        if self.minus > 0 || self.digits >= ONE_DIGIT {
            return self.refused();
        }
        self.minus = 1;
        self
    }

    // After a digit, which is not the fifth.
    fn digit(mut self, next: u64) -> State
        requires { next ≤ 9 }
        ensures { result ≡ digit self next }
    {
        if self.digits >= FOUR_DIGITS {
            return self.refused();
        }
        self.digits = self.digits * 10 + next;
        self
    }

    // One byte more. Most are digits, which are tested first: as one `match` with the others they come last, 39 instructions a line more.
    pub fn step(self, byte: u8) -> State
        ensures { result ≡ stepped self byte }
    {
        if byte.is_ascii_digit() {
            return self.digit(byte as u64 - b'0' as u64);
        }
        match byte {
            b' ' => self.ended(),
            b'-' => self.minus(),
            _ => self.refused(),
        }
    }

    // Nothing follows: the five readings in milliradians, where four words have ended and the fifth has a digit.
    pub fn finish(self) -> Option<[i64; 5]>
        ensures { result ≡ finished self }
    {
        if self.words != 4 || self.digits < ONE_DIGIT {
            return None;
        }
        Some([self.alpha, self.beta, self.xi, self.eta, self.number()])
    }
}
