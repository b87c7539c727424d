// An input, read to its end.
ghost use Rattle.std.specs.Prelude.{◌≡◌, ◌<◌, length, take, drop};
ghost use Rattle.std.specs.Io.KnownBytes.{ReadConsumes};
ghost use Rattle.streams.specs.Moving.{Moves, moved_of, input_of, Within, Reads};
ghost use Rattle.streams.specs.declared.input.ReadError.TheVariants.{Unreadable};

use crate::moved::{Moved, TRIES};
use crate::reason::{error_of, fail};
use std::io::{Eprint, Read};

// Why there is no whole input.
#[derive(Clone, Copy, Debug, PartialEq, Eq)]
pub enum ReadError {
    TooLong, // the buffer was full before the end
    Unreadable, // a read failed
}

// One read, behind what was read before, which stays.
fn read_behind<R: Read>(from: &mut R, buffer: &mut [u8], done: usize) -> std::io::Result<usize>
    requires { done < length buffer.old }
    ensures moves { Moves done (length buffer.new) (moved_of result) }
    ensures buffer_unchanged { take done buffer.new ≡ take done buffer.old }
    ensures bytes { ReadConsumes (R.remaining from.old) (R.remaining from.new) result (drop done buffer.new) }
{
    from.read(&mut buffer[done..])
}

// A reason on standard error.
fn unreadable<E: Eprint>(errors: &E, last: std::io::Result<usize>) -> ReadError
    ensures { result ≡ Unreadable }
{
    fail(errors, "the input cannot be read", error_of(last));
    ReadError::Unreadable
}

// The input, by the answer that ended its reading: only the end makes it whole.
fn input_of<E: Eprint>(
    errors: &E,
    last: std::io::Result<usize>,
    done: usize,
) -> Result<usize, ReadError>
    ensures { result ≡ input_of (moved_of last) done }
{
    match Moved::from(last) {
        Moved::Nothing => Ok(done),
        Moved::Bytes(_) | Moved::Interrupted | Moved::Failed => Err(unreadable(errors, last)),
    }
}

// Reads until the input ends, and gives its length; or until the buffer is full or a read fails. An interrupted read is tried again.
pub fn read_to_end<R: Read, E: Eprint>(
    from: &mut R,
    errors: &E,
    buffer: &mut [u8],
) -> Result<usize, ReadError>
    ensures within { Within result buffer.new }
    ensures bytes { Reads (R.remaining from.old) result buffer.new }
{
    let mut done = 0;
    // Kept: a count of its own, and no `for`: the tries are those of a whole input, as the program's behavior has it.
    let mut tries = TRIES;
    while done < buffer.len() {
        let last = read_behind(from, buffer, done);
        match Moved::from(last) {
            Moved::Bytes(count) => done += count,
            Moved::Interrupted if 0 < tries => tries -= 1,
            _ => return input_of(errors, last, done),
        }
    }
    Err(ReadError::TooLong)
}
