// An output, written whole.
ghost use Rattle.std.specs.Prelude.{◌≡◌, ℕ, ◌<◌, length, drop, OnOk, Ok};
ghost use Rattle.std.specs.Io.KnownBytes.{Appends, WriteAppends};
ghost use Rattle.io.specs.Digits.{IsDigitCount, last_digits};
ghost use Rattle.streams.specs.Moving.{Moves, moved_of};
ghost use Rattle.streams.specs.Printing.{Remembers};

use crate::moved::{Moved, TRIES};
use crate::reason::{error_of, fail};
use std::io::{Eprint, Write};

// A write failed, so the output lacks a part.
#[derive(Clone, Copy, Debug, PartialEq, Eq)]
pub struct NotWhole;

// Where an output goes, where it is said why a read or a write failed, and whether all was written so far: nothing is written
// behind a part that is missing.
#[derive(Drop)]
pub struct Printer<W, E> {
    pub out: W,
    pub errors: E,
    pub so_far: Result<(), NotWhole>,
}

// One write, of what is left.
fn write_rest<W: Write>(out: &mut W, bytes: &[u8], done: usize) -> std::io::Result<usize>
    requires { done < length bytes.now }
    ensures moves { Moves done (length bytes.now) (moved_of result) }
    ensures bytes { WriteAppends (W.contents out.old) (W.contents out.new) result (drop done bytes.now) }
{
    out.write(&bytes[done..])
}

// A reason on standard error.
fn not_whole<E: Eprint>(errors: &E, last: std::io::Result<usize>) -> NotWhole {
    fail(errors, "the output is not whole", error_of(last));
    NotWhole
}

// Writes all the bytes, or stops at the first write that fails and says why. An interrupted write is tried again.
// Kept: beside the loop of `read_to_end`: the one tells what a reader lost, the other what a writer got; a trait for both is no plainer.
fn write_all<W: Write, E: Eprint>(out: &mut W, errors: &E, bytes: &[u8]) -> Result<(), NotWhole>
    ensures { OnOk result (Appends (W.contents out.old) (W.contents out.new) bytes.now) }
{
    let mut done = 0;
    let mut tries = TRIES;
    while done < bytes.len() {
        let last = write_rest(out, bytes, done);
        match Moved::from(last) {
            Moved::Bytes(count) => done += count,
            Moved::Interrupted if 0 < tries => tries -= 1,
            _ => return Err(not_whole(errors, last)),
        }
    }
    Ok(())
}

impl<W: Write, E: Eprint> Printer<W, E> {
    pub fn new(out: W, errors: E) -> Self
        ensures { result ≡ record { out = out; errors = errors; so_far = Ok tt } }
    {
        Printer {
            out,
            errors,
            so_far: Ok(()),
        }
    }

    // Writes the bytes where all before them were written. Where a write fails, a line on standard error says so, once.
    pub fn print(&mut self, bytes: &[u8]) -> Result<(), NotWhole>
        ensures bytes { OnOk result (Appends (W.contents self.old.out) (W.contents self.new.out) bytes.now) }
        ensures remembered { Remembers self.old self.new result }
    {
        self.so_far?;
        self.so_far = write_all(&mut self.out, &self.errors, bytes);
        self.so_far
    }

    // The same of a number, in decimal.
    pub fn print_number(&mut self, n: u64) -> Result<(), NotWhole>
        ensures digits { OnOk result ((size : ℕ) × IsDigitCount 10 1 n size
            × Appends (W.contents self.old.out) (W.contents self.new.out) (last_digits 10 size n)) }
        ensures remembered { Remembers self.old self.new result }
    {
        let mut text = [0u8; 20];
        let size = io::decimal(n, &mut text);
        self.print(&text[..size])
    }
}
