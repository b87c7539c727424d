// Replays the stored answers of the judge: it reads the cases that the judge stores in crates/plan_vectors/stdin, answers each
// input by the functions of the program `plan`, compares the text byte by byte, and prints by the first word of the expected text how
// many passed and how many failed, and before that the first of these answers as `plan` prints it. A case that fails is named by its
// number. Before the replay it prints the answers that no stored case has: to too many cells, and where too little is lent.
// The lent memory is not cleared between inputs: no answer depends on what it held. The finder has 8 places: sheets with more records
// are planned by walking, the others with it.

#![tactic(auto)]

mod cases; // the stored cases, and the first words of their texts
mod texts; // the text of an answer, printed or compared
mod unstored; // answers that no stored case has
mod compare; // the stored cases, answered and compared

ghost use Rattle.std.specs.Prelude.{◌<◌, ◌^◌};

use crate::cases::Cases;
use crate::texts::Text;
use plan_answer::Lent;
use std::io::{Eprint, Read, Write};
use streams::{NotWhole, Printer, ReadError};

// What the cases are for, once they are read.
fn replay<W: Write, E: Eprint>(
    to: &mut Printer<W, E>,
    cases: &[u8],
    lent: &mut Lent,
    text: &mut Text,
) -> Result<(), NotWhole> {
    unstored::print_unreads(to, cases, lent, text)?;
    if let Some(case) = Cases(cases).next() {
        unstored::print_untaped(to, case, lent, text)?;
    }
    compare::compare_all(to, Cases(cases), lent, text)
}

// Reads the cases, which must leave room in their buffer. The room behind them serves for long inputs, then they are replayed.
fn run<R: Read, W: Write, E: Eprint>(
    from: &mut R,
    to: &mut Printer<W, E>,
    cases: &mut [u8],
    lent: &mut Lent,
    text: &mut Text,
) -> Result<(), NotWhole> {
    match streams::read_to_end(from, &to.errors, cases) {
        Ok(size) => {
            unstored::print_long(to, &mut cases[size..], lent, text)?;
            replay(to, &cases[..size], lent, text)
        }
        Err(ReadError::TooLong) => to.print(b"too long\n"),
        Err(ReadError::Unreadable) => to.print(b"unreadable\n"),
    }
}

// Lends what the plans need besides the cases: lists, a tape, zeros and a buffer of text, of so many places.
// Kept: functions with const parameters: memory is fixed, and no proof goes through the numbers (docs/DECISIONS.md).
fn lend<
    R: Read,
    W: Write,
    E: Eprint,
    const FINDER: usize,
    const HIDDEN: usize,
    const TAPE: usize,
    const COUNTS: usize,
    const MARKS: usize,
>(from: &mut R, to: &mut Printer<W, E>, cases: &mut [u8]) -> Result<(), NotWhole>
    requires finder { FINDER < 2 ^ 60 }
    requires hidden { HIDDEN < 2 ^ 60 }
    requires tape { TAPE < 2 ^ 60 }
    requires counts { COUNTS < 2 ^ 60 }
    requires marks { MARKS < 2 ^ 60 }
{
    let mut finder = [0u32; FINDER];
    let mut hidden = [0u32; HIDDEN];
    let mut tape = [0u8; TAPE];
    let mut counts = [0u64; COUNTS];
    let mut marks = [0u8; MARKS];
    let mut text = [0u8; 4096];
    let mut lent = Lent {
        finder: &mut finder,
        hidden: &mut hidden,
        tape: &mut tape,
        counts: &mut counts,
        marks: &mut marks,
    };
    run(from, to, cases, &mut lent, &mut text)
}

// Lends room for so many bytes of cases.
fn lend_cases<R: Read, W: Write, E: Eprint, const CASES: usize>(
    from: &mut R,
    to: &mut Printer<W, E>,
) -> Result<(), NotWhole>
    requires { CASES < 2 ^ 60 }
{
    let mut cases = [0u8; CASES];
    lend::<_, _, _, 8, 1024, 262144, 196608, 204800>(from, to, &mut cases)
}

fn main(rt: HostRuntime) {
    let mut to = Printer::new(rt.stdout(), rt.stderr());
    let _ = lend_cases::<_, _, _, 2097152>(&mut rt.stdin(), &mut to);
}
