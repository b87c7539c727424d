// The lines of a tape, as many as there is room for.
ghost use Rattle.std.specs.Prelude.{◌≡◌, ◌<◌, length};
ghost use Rattle.plan_text.specs.Text.{next_record};
ghost use Rattle.plan_text.specs.Written.{PutLines};

use crate::line::put_line;

// No line is longer.
const LINE_ROOM: usize = 160;

// Where the lines stop: on the tape, and in the text.
#[derive(Clone, Copy)]
pub struct Lines {
    pub next: usize,
    pub end: usize,
}

// Where the record after this one stands. A record that says it is shorter than its head is the last.
#[tactic(auto, using(std::proofs::lemmas::Bool::Decides::nat_tests), unfolding(crate::specs::Text::next_record))]
fn next_record(tape: &[u8], at: usize) -> usize
    requires { at < length tape.now }
    ensures { result ≡ next_record tape.now at }
{
    let length = fields::u32_at(tape, at) as usize;
    if length < fields::HEAD {
        return tape.len();
    }
    at + length
}

// Puts the lines of the records from an offset on at the start of the text, until the tape ends or a line might not fit.
pub fn put_lines(text: &mut [u8], tape: &[u8], from: usize) -> Lines
    ensures { PutLines tape.now from text.old text.new result }
{
    let mut next = from;
    let mut end = 0;
    while next < tape.len() {
        if text.len() - end < LINE_ROOM {
            return Lines { next, end };
        }
        end = put_line(text, end, &tape[next..]);
        next = next_record(tape, next);
    }
    Lines { next, end }
}
