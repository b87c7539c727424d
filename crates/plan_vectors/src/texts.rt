// An answer as `plan` prints it, printed or compared. The buffer of text has room for each line.
ghost use Rattle.std.specs.Prelude.{◌≤◌, length};
ghost use Rattle.plan_answer.specs.Text.{tape_end};

use plan_answer::{Lent, NoPlan};
use std::io::{Eprint, Write};
use streams::{NotWhole, Printer, ReadError};

pub(crate) type Text = [u8; 4096];

// Whether the text of an answer is the one expected.
pub(crate) fn is_expected(
    expected: &[u8],
    text: &mut Text,
    answer: Result<usize, NoPlan>,
    tape: &[u8],
) -> bool
    requires { tape_end answer ≤ length tape.now }
{
    let end = plan_answer::text_end(answer);
    let mut at = 0;
    let mut rest = expected;
    while at < end {
        let part = plan_answer::put_part(text, answer, tape, at);
        let size = part.end;
        match rest.strip_prefix(&text[..size]) {
            Some(behind) => rest = behind,
            None => return false,
        }
        at = part.next;
    }
    rest.is_empty()
}

// Prints the answer to an input as `plan` does, behind a word on the input.
pub(crate) fn print_input<W: Write, E: Eprint>(
    to: &mut Printer<W, E>,
    word: &[u8],
    input: &[u8],
    lent: &mut Lent,
    text: &mut Text,
) -> Result<(), NotWhole> {
    to.print(word)?;
    let answer = plan_answer::answer(input, lent);
    plan_answer::print_answer(to, text, answer, lent.tape)
}

// The same of an input that was not read to its end, which the bytes in the buffer do not matter for.
pub(crate) fn print_unread<W: Write, E: Eprint>(
    to: &mut Printer<W, E>,
    word: &[u8],
    buffer: &[u8],
    error: ReadError,
    lent: &mut Lent,
    text: &mut Text,
) -> Result<(), NotWhole> {
    to.print(word)?;
    let answer = plan_answer::answer_input(buffer, Err(error), lent);
    plan_answer::print_answer(to, text, answer, lent.tape)
}
