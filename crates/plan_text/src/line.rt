// The lines: one for each record of the tape, and one for a refusal.
// A record is given by the tape's bytes from its first on.
ghost use Rattle.std.specs.Prelude.{◌+◌, ◌≤◌, length};
ghost use Rattle.plan_text.specs.Text.{batch_line, text_line, point_line, proxy_line, totals_line, line_of, refused_line};
ghost use Rattle.plan_text.specs.Written.{Puts, Written, line_room};

use crate::piece::{Float, Line, Number, Piece};

// The kinds of the records on a tape.
const BATCH: u16 = 11;

const TEXT: u16 = 12;

const POINT: u16 = 13;

const PROXY: u16 = 14;

const TOTALS: u16 = 15;

fn put_batch(line: &mut Line, bytes: &[u8])
    requires { line.old.end + line_room ≤ length line.old.text.now }
    ensures { Puts line_room line.old (batch_line bytes.now) line.new }
{
    line.word(b"batch");
    Number::put(line, fields::u32_at(bytes, fields::HEAD) as u64);
    line.fields::<Float>(bytes, 10, 6);
    line.word(b"\n");
}

fn put_text(line: &mut Line, bytes: &[u8])
    requires { line.old.end + line_room ≤ length line.old.text.now }
    ensures { Puts line_room line.old (text_line bytes.now) line.new }
{
    line.word(b"text");
    Number::put(line, fields::u32_at(bytes, fields::HEAD) as u64);
    line.fields::<Float>(bytes, 10, 2);
    line.word(b"\n");
}

fn put_point(line: &mut Line, bytes: &[u8])
    requires { line.old.end + line_room ≤ length line.old.text.now }
    ensures { Puts line_room line.old (point_line bytes.now) line.new }
{
    line.word(b"point");
    Number::put(line, fields::u16_at(bytes, fields::HEAD) as u64);
    Number::put(line, fields::u16_at(bytes, 8) as u64);
    line.fields::<Float>(bytes, 10, 2);
    line.word(b"\n");
}

fn put_proxy(line: &mut Line, bytes: &[u8])
    requires { line.old.end + line_room ≤ length line.old.text.now }
    ensures { Puts line_room line.old (proxy_line bytes.now) line.new }
{
    line.word(b"proxy");
    line.label(fields::u32_at(bytes, fields::HEAD));
    line.fields::<Float>(bytes, 10, 4);
    line.word(b"\n");
}

fn put_totals(line: &mut Line, bytes: &[u8])
    requires { line.old.end + line_room ≤ length line.old.text.now }
    ensures { Puts line_room line.old (totals_line bytes.now) line.new }
{
    line.word(b"totals");
    line.fields::<Number>(bytes, fields::HEAD, 7);
    line.word(b"\n");
}

// The line of a record of the tape.
fn put_record(line: &mut Line, bytes: &[u8])
    requires { line.old.end + line_room ≤ length line.old.text.now }
    ensures { Puts line_room line.old (line_of bytes.now) line.new }
{
    match fields::u16_at(bytes, fields::KIND) {
        BATCH => put_batch(line, bytes),
        TEXT => put_text(line, bytes),
        POINT => put_point(line, bytes),
        PROXY => put_proxy(line, bytes),
        TOTALS => put_totals(line, bytes),
        _ => {}
    }
}

pub(crate) fn put_line(text: &mut [u8], at: usize, bytes: &[u8]) -> usize
    requires { at + line_room ≤ length text.old }
    ensures { Written line_room text.old at (line_of bytes.now) text.new result }
{
    let mut line = Line { text, end: at };
    put_record(&mut line, bytes);
    line.end
}

fn put_refusal(line: &mut Line, refusal: u32, offset: usize)
    requires { line.old.end + line_room ≤ length line.old.text.now }
    ensures { Puts line_room line.old (refused_line refusal offset) line.new }
{
    line.word(b"refused");
    Number::put(line, refusal as u64);
    Number::put(line, offset as u64);
    line.word(b"\n");
}

pub fn put_refused(text: &mut [u8], at: usize, refusal: u32, offset: usize) -> usize
    requires { at + line_room ≤ length text.old }
    ensures { Written line_room text.old at (refused_line refusal offset) text.new result }
{
    let mut line = Line { text, end: at };
    put_refusal(&mut line, refusal, offset);
    line.end
}
