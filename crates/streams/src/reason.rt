// Why a call failed, on standard error.
ghost use Rattle.std.specs.Prelude.{◌≤◌, length};

use std::io::{Eprint, Error, Result, Write};

// The longest text of an error, with its number behind it.
const ROOM: usize = 320;

// Where the words before the last bracket end, with the blank in front of it left out: an error's number stands in brackets.
fn before_bracket(text: &[u8]) -> usize
    ensures { result ≤ length text.now }
{
    let bracket = text.iter().rposition(|byte| *byte == b'(');
    bracket.map_or(text.len(), |i| i.saturating_sub(1))
}

// The error of an answer that has one. Where a call moved nothing and gave no error, it is the number 0, which is none.
pub(crate) fn error_of(got: Result<usize>) -> Error {
    match got {
        Ok(_) => Error::from_raw_os_error(0),
        Err(error) => error,
    }
}

// Writes a line to standard error: what failed, as the caller names it, a colon and the error's text as far as it fits, without its
// number.
pub fn fail<E: Eprint>(errors: &E, what: &str, error: Error) {
    let mut text = [0u8; ROOM];
    let mut rest = &mut text[..];
    let _ = write!(rest, "{error}");
    let size = ROOM.saturating_sub(rest.len());
    let words = &text[..size];
    let end = before_bracket(words);
    if let Ok(reason) = std::str::from_utf8(&words[..end]) {
        let _ = eprintln!(errors; "{what}: {reason}");
    }
}
