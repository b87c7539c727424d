// Reads a sheet on standard input, with a query in front or without, and prints what document 01's questions 1 to 7 say of it:
//     sound BATCHES TEXTS NODES REFERENCES CELLS    how many records there are of each kind
//     refused NUMBER OFFSET                         the first no; offsets count from the sheet's first byte
//     too long                                      the input does not fit the program's buffer
//     unreadable                                    the input could not be read to its end
// Where a read or a write fails, standard error says why; a failed write ends the output.

#![tactic(auto)]

ghost use Rattle.std.specs.Prelude.{◌<◌, ◌^◌};

use check_sheet::Counts;
use std::io::{Eprint, Read, Write};
use streams::{NotWhole, Printer, ReadError};

// A word and numbers, a blank before each.
fn print_line<W: Write, E: Eprint>(
    to: &mut Printer<W, E>,
    word: &[u8],
    numbers: &[u64],
) -> Result<(), NotWhole> {
    to.print(word)?;
    for number in numbers {
        to.print(b" ")?;
        to.print_number(*number)?;
    }
    to.print(b"\n")
}

fn print_sound<W: Write, E: Eprint>(
    to: &mut Printer<W, E>,
    counts: Counts,
) -> Result<(), NotWhole> {
    let numbers = [
        counts.geometries as u64,
        counts.texts as u64,
        counts.nodes as u64,
        counts.references as u64,
        counts.cells as u64,
    ];
    print_line(to, b"sound", &numbers)
}

fn report<W: Write, E: Eprint>(to: &mut Printer<W, E>, input: &[u8]) -> Result<(), NotWhole> {
    let sheet = plan_query::sheet_at(input);
    match check_sheet::check_sheet(&input[sheet..]) {
        Ok(counts) => print_sound(to, counts),
        Err(error) => print_line(
            to,
            b"refused",
            &[error.number() as u64, error.offset() as u64],
        ),
    }
}

fn run<R: Read, W: Write, E: Eprint>(
    from: &mut R,
    to: &mut Printer<W, E>,
    buffer: &mut [u8],
) -> Result<(), NotWhole> {
    match streams::read_to_end(from, &to.errors, buffer) {
        Ok(size) => report(to, &buffer[..size]),
        Err(ReadError::TooLong) => to.print(b"too long\n"),
        Err(ReadError::Unreadable) => to.print(b"unreadable\n"),
    }
}

// Lends a buffer of so many bytes: one that an input fills is too long for it.
fn lend<R: Read, W: Write, E: Eprint, const SIZE: usize>(
    from: &mut R,
    to: &mut Printer<W, E>,
) -> Result<(), NotWhole>
    requires { SIZE < 2 ^ 63 }
{
    let mut buffer = [0u8; SIZE];
    run(from, to, &mut buffer)
}

// An input of 7,340,032 bytes fits. Where a write failed, that was said.
fn main(rt: HostRuntime) {
    let mut to = Printer::new(rt.stdout(), rt.stderr());
    let _ = lend::<_, _, _, 7340033>(&mut rt.stdin(), &mut to);
}
