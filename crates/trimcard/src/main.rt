// Answers each line of five readings on standard input with the number given back and the six coefficients of the published table.
#![tactic(auto)]

ghost use Rattle.std.specs.Prelude.{◌≡◌};
ghost use Rattle.answers.specs.Reading.{readings_after};

use answers::Reading;
use layout::cumulus_one::TABLE;
use std::io;
use std::io::Write;
use streams::Answering;

// How many bytes of answers are written at once: more than the longest answer has.
const ROOM: usize = 65536;

// The published table, which is lent to be read, what is known of the input so far, and room for answers.
#[derive(Drop)]
struct Trimcard<'a> {
    table: &'a [i64],
    reading: Reading,
    out: [u8; ROOM],
}

impl Answering for Trimcard<'_> {
    ghost takes = { λ before piece after. (after.table.now ≡ before.table.now) × (after.reading ≡ readings_after before.reading piece) };

    // There is a write each time the output is full.
    fn take_piece<W: Write>(&mut self, piece: &[u8], to: &mut W) -> io::Result<()> {
        let mut rest = piece;
        while !rest.is_empty() {
            let fed = answers::feed(self.table, self.reading, rest, &mut self.out);
            streams::write(to, &self.out[..fed.put])?;
            self.reading = fed.reading;
            rest = &rest[fed.taken..];
        }
        Ok(())
    }

    // Answers a last line that no newline ends.
    fn finish<W: Write>(&mut self, to: &mut W) -> io::Result<()> {
        let put = answers::finish(self.table, self.reading, &mut self.out);
        streams::write(to, &self.out[..put])?;
        Ok(())
    }
}

fn main(rt: HostRuntime) {
    let mut table = [0i64; TABLE];
    let _ = cumulus::publish(&mut table);
    let mut trimcard = Trimcard {
        table: &table,
        reading: Reading::fresh(),
        out: [0u8; ROOM],
    };
    let end = streams::run(&mut trimcard, &mut rt.stdin(), &mut rt.stdout());
    streams::tell(
        &mut rt.stderr(),
        end,
        b"trimcard: the input cannot be read",
        b"trimcard: the answers cannot be written",
    );
}
