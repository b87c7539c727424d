// Compares `check_sheet::check_sheet` and `walk::find` with the answers that tools/sheet-cases.py writes down: it reads the
// cases on standard input and prints, by expected number and then of the look-ups, how many passed and how many failed.

#![tactic(auto)]

mod cases; // the stored cases, and the sheets that they describe
mod compare; // each case answered and compared

ghost use Rattle.std.specs.Prelude.{◌<◌, ◌^◌};

use crate::cases::Cases;
use crate::compare::compare_all;
use std::io::{Eprint, Read, Write};
use streams::{NotWhole, Printer, ReadError};

fn run<R: Read, W: Write, E: Eprint>(
    from: &mut R,
    to: &mut Printer<W, E>,
    cases: &mut [u8],
    sheet: &mut [u8],
) -> Result<(), NotWhole> {
    match streams::read_to_end(from, &to.errors, cases) {
        Ok(size) => compare_all(to, Cases(&cases[..size]), sheet),
        Err(ReadError::TooLong) => to.print(b"too long\n"),
        Err(ReadError::Unreadable) => to.print(b"unreadable\n"),
    }
}

// Lends buffers of so many bytes.
fn lend<R: Read, W: Write, E: Eprint, const CASES: usize, const SHEET: usize>(
    from: &mut R,
    to: &mut Printer<W, E>,
) -> Result<(), NotWhole>
    requires cases { CASES < 2 ^ 63 }
    requires sheet { SHEET < 2 ^ 63 }
{
    let mut cases = [0u8; CASES];
    let mut sheet = [0u8; SHEET];
    run(from, to, &mut cases, &mut sheet)
}

fn main(rt: HostRuntime) {
    let mut to = Printer::new(rt.stdout(), rt.stderr());
    let _ = lend::<_, _, _, 131072, 262144>(&mut rt.stdin(), &mut to);
}
