// The text of an answer, a part at a time.
ghost use Rattle.std.specs.Prelude.{◌≡◌, ◌≤◌, ◌<◌, length};
ghost use Rattle.plan_text.specs.Written.{Written, line_room};
ghost use Rattle.plan_answer.specs.NoPlan.{line_instead};
ghost use Rattle.plan_answer.specs.Text.{tape_end, text_end};
ghost use Rattle.plan_answer.specs.Part.{PutPart};

use crate::no_plan::NoPlan;
use plan_text::Lines;

// Where the text of an answer ends: with the tape, or behind its one line.
pub fn text_end(answer: Result<usize, NoPlan>) -> usize
    ensures { result ≡ text_end answer }
{
    answer.unwrap_or(1)
}

// The one line in place of a plan.
fn put_line(text: &mut [u8], why: NoPlan) -> usize
    requires { line_room ≤ length text.old }
    ensures { Written line_room text.old 0 (line_instead why) text.new result }
{
    match why {
        NoPlan::Refused(number, offset) => plan_text::put_refused(text, 0, number, offset),
        NoPlan::NoQuery => plan_text::put_word(text, 0, b"no query\n"),
        NoPlan::TooLong => plan_text::put_word(text, 0, b"too long\n"),
        NoPlan::Unreadable => plan_text::put_word(text, 0, b"unreadable\n"),
    }
}

// Puts the text of an answer from a place before its end on at the start of the lent text, as far as there is room.
pub fn put_part(text: &mut [u8], answer: Result<usize, NoPlan>, tape: &[u8], from: usize) -> Lines
    requires tape_in_bounds { tape_end answer ≤ length tape.now }
    requires from_bound { from < text_end answer }
    requires line_room_in_bounds { line_room ≤ length text.old }
    ensures { PutPart answer tape.now from text.old text.new result }
{
    match answer {
        Ok(length) => plan_text::put_lines(text, &tape[..length], from),
        Err(why) => Lines {
            next: 1,
            end: put_line(text, why),
        },
    }
}
