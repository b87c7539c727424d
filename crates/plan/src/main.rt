// Reads a query, as a record of kind 20, and then a sheet on standard input, and prints the plan:
//     batch NUMBER and six floats        a shape, with its placement
//     text NUMBER and two floats         a text, with its position
//     point LAYER TYPE and two floats    a node point, with its position
//     proxy LABEL and four floats        a box, with the number of its cell or `none`
//     totals and seven numbers           the totals, last
// or one line:
//     refused NUMBER OFFSET              the first no
//     no query                           the first record is no whole query
//     too long                           the input does not fit the program's buffers
//     unreadable                         the input could not be read to its end
// A float is printed as the 16 hexadecimal digits of its pattern. Where a read or a write fails, standard error says why; a failed
// write ends the output.

#![tactic(auto)]

ghost use Rattle.std.specs.Prelude.{◌≤◌, ◌<◌, ◌^◌, length};
ghost use Rattle.totals.specs.TapeLength.{most_tape};
ghost use Rattle.plan_text.specs.Written.{line_room};

use plan_answer::Lent;
use std::io::{Eprint, Read, Write};
use streams::{NotWhole, Printer};

fn run<R: Read, W: Write, E: Eprint>(
    from: &mut R,
    to: &mut Printer<W, E>,
    buffer: &mut [u8],
    lent: &mut Lent,
    text: &mut [u8],
) -> Result<(), NotWhole>
    requires { line_room ≤ length text.old }
{
    let input = streams::read_to_end(from, &to.errors, buffer);
    let answer = plan_answer::answer_input(buffer, input, lent);
    plan_answer::print_answer(to, text, answer, lent.tape)
}

// Lends what a plan needs besides its input and its tape: lists, zeros and a buffer of text, of so many places.
// Kept: three functions with const parameters: memory is fixed, and no proof goes through the numbers (docs/DECISIONS.md).
fn lend<
    R: Read,
    W: Write,
    E: Eprint,
    const FINDER: usize,
    const HIDDEN: usize,
    const COUNTS: usize,
    const MARKS: usize,
    const TEXT: usize,
>(from: &mut R, to: &mut Printer<W, E>, buffer: &mut [u8], tape: &mut [u8]) -> Result<(), NotWhole>
    requires finder { FINDER < 2 ^ 60 }
    requires hidden { HIDDEN < 2 ^ 60 }
    requires counts { COUNTS < 2 ^ 60 }
    requires marks { MARKS < 2 ^ 60 }
    requires text { TEXT < 2 ^ 60 }
    requires line_room { line_room ≤ TEXT }
{
    let mut finder = [0u32; FINDER];
    let mut hidden = [0u32; HIDDEN];
    let mut counts = [0u64; COUNTS];
    let mut marks = [0u8; MARKS];
    let mut text = [0u8; TEXT];
    let mut lent = Lent {
        finder: &mut finder,
        hidden: &mut hidden,
        tape,
        counts: &mut counts,
        marks: &mut marks,
    };
    run(from, to, buffer, &mut lent, &mut text)
}

// Lends a tape of so many bytes, which no tape exceeds. The finder has a place for each 26 bytes of input, which no sheet exceeds.
// Counts and marks are enough for 4,096 cells at depth 48.
fn lend_tape<R: Read, W: Write, E: Eprint, const TAPE: usize>(
    from: &mut R,
    to: &mut Printer<W, E>,
    buffer: &mut [u8],
) -> Result<(), NotWhole>
    requires tape { TAPE < 2 ^ 60 }
    requires enough { most_tape ≤ TAPE }
{
    let mut tape = [0u8; TAPE];
    lend::<_, _, _, 28356, 16384, 196608, 204800, 8192>(from, to, buffer, &mut tape)
}

// Lends a buffer of so many bytes: one that an input fills is too long for it.
fn lend_buffer<R: Read, W: Write, E: Eprint, const BUFFER: usize>(
    from: &mut R,
    to: &mut Printer<W, E>,
) -> Result<(), NotWhole>
    requires { BUFFER < 2 ^ 60 }
{
    let mut buffer = [0u8; BUFFER];
    lend_tape::<_, _, _, 5360062>(from, to, &mut buffer)
}

// An input of 737,280 bytes fits. All buffers together leave 318 KiB of a stack of 8 MiB. Where a write failed, that was said.
fn main(rt: HostRuntime) {
    let mut to = Printer::new(rt.stdout(), rt.stderr());
    let _ = lend_buffer::<_, _, _, 737281>(&mut rt.stdin(), &mut to);
}
