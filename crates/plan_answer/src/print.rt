// The text of an answer, printed. No contract can say what the system writes; a writer that says which bytes it got got the whole text.
ghost use Rattle.std.specs.Prelude.{◌≤◌, length, OnOk};
ghost use Rattle.std.specs.Io.KnownBytes.{Appends};
ghost use Rattle.streams.specs.Printing.{Remembers};
ghost use Rattle.plan_text.specs.Written.{line_room};
ghost use Rattle.plan_answer.specs.Text.{tape_end, text_from};

use crate::no_plan::NoPlan;
use crate::part::{put_part, text_end};
use std::io::{Eprint, Write};
use streams::{NotWhole, Printer};

// Prints an answer, a buffer at a time, where all before it was written. The first write that fails ends the output.
pub fn print_answer<W: Write, E: Eprint>(
    to: &mut Printer<W, E>,
    text: &mut [u8],
    answer: Result<usize, NoPlan>,
    tape: &[u8],
) -> Result<(), NotWhole>
    requires tape_in_bounds { tape_end answer ≤ length tape.now }
    requires line_room_in_bounds { line_room ≤ length text.old }
    ensures bytes { OnOk result (Appends (W.contents to.old.out) (W.contents to.new.out) (text_from answer tape.now 0)) }
    ensures remembered { Remembers to.old to.new result }
{
    let end = text_end(answer);
    let mut at = 0;
    while at < end {
        let part = put_part(text, answer, tape, at);
        let size = part.end;
        to.print(&text[..size])?;
        at = part.next;
    }
    to.so_far
}
