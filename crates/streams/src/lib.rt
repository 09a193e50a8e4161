// Reading and writing that try again where a signal interrupted the call, or where it would have had to wait. Of the library's calls none
// waits until a stream is ready, so before the next try the processor is left to whoever else wants it.
#![tactic(auto)]

ghost use Rattle.std.specs.Prelude.{◌≡◌, ℕ, List, ⊤, IfErr, OnOk, false, length};
ghost use Rattle.std.specs.Io.KnownBytes.{IsAtEnd};
ghost use Rattle.std.specs.IoError.{error_kind};
ghost use Rattle.streams.specs.Outcomes.{outcome_of, passes, Got, Put, Took, Gave, GaveAll};

use std::io::{Cursor, ErrorKind, Read, Write};
use std::thread::yield_now;
use std::{io, str};

// What the answer of a reader's `read` or of a writer's `write` comes to: none where the call is to be tried again.
fn comes_to(answer: io::Result<usize>) -> Option<io::Result<usize>>
    ensures { result ≡ outcome_of answer }
{
    match answer {
        Ok(n) => Some(Ok(n)),
        Err(error) => match error.kind() {
            ErrorKind::Interrupted | ErrorKind::WouldBlock => None,
            _ => Some(Err(error)),
        },
    }
}

// Reads some bytes to the start of buf, none at the end of the input, or fails. A proved loop has to end, so it has a number of turns
// that no run uses up.
pub fn read<R: Read>(from: &mut R, buf: &mut [u8]) -> io::Result<usize>
    ensures count { Got (length buf.old) result }
    ensures bytes { Took (R.remaining from.old) (R.remaining from.new) buf.new result }
    ensures tried { IfErr result (λ error. passes (error_kind error) ≡ false) }
{
    for _ in 0..u64::MAX {
        match comes_to(from.read(buf)) {
            Some(answer) => return answer,
            None => yield_now(),
        }
    }
    Err(io::Error::from(ErrorKind::TimedOut))
}

// Writes some of buf's first bytes, or fails. The loop is that of `read` with another call: one over a closure would have to say in its
// contract what any closure's calls leave behind, which is longer than the loop.
// That an error which passes is tried again is said of each of the three results, since each is a caller's own.
fn write_some<W: Write>(to: &mut W, buf: &[u8]) -> io::Result<usize>
    ensures count { Got (length buf.now) result }
    ensures bytes { Gave (W.contents to.old) (W.contents to.new) buf.now result }
    ensures tried { IfErr result (λ error. passes (error_kind error) ≡ false) }
{
    for _ in 0..u64::MAX {
        match comes_to(to.write(buf)) {
            Some(answer) => return answer,
            None => yield_now(),
        }
    }
    Err(io::Error::from(ErrorKind::TimedOut))
}

// Writes all of buf, or fails where a write does or takes nothing.
pub fn write<W: Write>(to: &mut W, buf: &[u8]) -> io::Result<usize>
    ensures count { Put (length buf.now) result }
    ensures bytes { GaveAll (W.contents to.old) (W.contents to.new) buf.now result }
    ensures tried { IfErr result (λ error. passes (error_kind error) ≡ false) }
{
    let mut rest = buf;
    while !rest.is_empty() {
        let n = write_some(to, rest)?;
        if n == 0 {
            return Err(io::Error::from(ErrorKind::WriteZero));
        }
        rest = &rest[n..];
    }
    Ok(buf.len())
}

// Why a program's run ends before all is done: no more could be read or written.
#[derive(Drop)]
pub enum Fault {
    Unread(io::Error),
    Unwritten(io::Error),
}

// What answers an input: it takes one piece after the other, of any size, and is told where the input ends. What it writes goes to
// the stream that it is given; it stops where that fails.
pub trait Answering {
    // What taking these bytes makes of it.
    ghost takes: { Self → List ℕ → Self → Type 0 } = { λ _ _ _. ⊤ };

    fn take_piece<W: Write>(&mut self, piece: &[u8], to: &mut W) -> io::Result<()>
        ensures { OnOk result (takes self.old piece.now self.new) };

    fn finish<W: Write>(&mut self, to: &mut W) -> io::Result<()>;
}

// How many bytes are read at once.
const PIECE: usize = 65536;

// Hands the whole input on. The loop has a number of turns that no run uses up, as in `read`.
pub fn run<A: Answering, R: Read, W: Write>(
    answering: &mut A,
    from: &mut R,
    to: &mut W,
) -> Result<(), Fault>
    ensures { OnOk result (IsAtEnd (R.remaining from.new)) }
{
    let mut buf = [0u8; PIECE];
    for _ in 0..u64::MAX {
        let got = read(from, &mut buf).map_err(Fault::Unread)?;
        if got == 0 {
            return answering.finish(to).map_err(Fault::Unwritten);
        }
        answering
            .take_piece(&buf[..got], to)
            .map_err(Fault::Unwritten)?;
    }
    Err(Fault::Unread(io::Error::from(ErrorKind::TimedOut)))
}

// Says in one line, to standard error as it is called, what could not be done, and why, in the system's words.
pub fn tell<W: Write>(to: &mut W, end: Result<(), Fault>, unread: &[u8], unwritten: &[u8]) {
    match end {
        Ok(()) => {}
        Err(Fault::Unread(error)) => fail(to, unread, &error),
        Err(Fault::Unwritten(error)) => fail(to, unwritten, &error),
    }
}

// Writes what could not be done, a colon and the reason, and a newline. Where that can't be written either, there is nobody to be told.
fn fail<W: Write>(to: &mut W, what: &[u8], error: &io::Error) {
    let mut room = Cursor::new([0u8; 256]);
    let _ = write!(room, "{error}");
    let length = room.position().min(256) as usize;
    let bytes = room.into_inner();
    let text = str::from_utf8(&bytes[..length]).unwrap_or("");
    let _ = write(to, what);
    let _ = write(to, b": ");
    let _ = write(to, reason(text).as_bytes());
    let _ = write(to, b"\n");
}

// An error's text without the number that the library sets behind the system's words.
fn reason(text: &str) -> &str {
    match text.split_once(" (os error ") {
        Some((words, _)) => words,
        None => text,
    }
}
