// A line that is being written, and its pieces: words, and numbers and floats, a blank before each.
// A writer's caller keeps room for what it writes.
ghost use Rattle.std.specs.Prelude.{ℕ, List, ◌∷◌, ◌+◌, ◌*◌, ◌≤◌, ◌<◌, ◌^◌, length};
ghost use Rattle.plan_text.specs.Text.{digits, number, float, label_text, each_field};
ghost use Rattle.plan_text.specs.Written.{Puts, Written};

use crate::number::{decimal_size, put_digits};
use records::NO_LABEL;

// The lent text, and where the next piece stands.
#[derive(Drop)]
pub(crate) struct Line<'a> {
    pub(crate) text: &'a mut [u8],
    pub(crate) end: usize,
}

// A number of 64 bits as a piece of a line.
pub(crate) trait Piece {
    ghost room: { ℕ };

    ghost piece: { ℕ → List ℕ };

    fn put(line: &mut Line, n: u64)
        requires { line.old.end + room ≤ length line.old.text.now }
        ensures { Puts room line.old (piece n) line.new };
}

// A number, in decimal.
pub(crate) struct Number;

// A float, as the 16 hexadecimal digits of its pattern.
pub(crate) struct Float;

impl Piece for Number {
    ghost room = { 21 };

    ghost piece = { number };

    fn put(line: &mut Line, n: u64) {
        line.digits(10, decimal_size(n), n);
    }
}

impl Piece for Float {
    ghost room = { 17 };

    ghost piece = { float };

    fn put(line: &mut Line, n: u64) {
        line.digits(16, 16, n);
    }
}

impl Line<'_> {
    pub(crate) fn word(&mut self, word: &[u8])
        requires { self.old.end + length word.now ≤ length self.old.text.now }
        ensures { Puts (length word.now) self.old word.now self.new }
    {
        let from = self.end;
        let end = from + word.len();
        self.text[from..end].copy_from_slice(word);
        self.end = end;
    }

    // A blank, and so many digits of a number.
    fn digits(&mut self, radix: u64, size: usize, n: u64)
        requires positive { 0 < radix }
        requires at_most_16 { radix ≤ 16 }
        requires room { self.old.end + 1 + size ≤ length self.old.text.now }
        ensures { Puts (1 + size) self.old (32 ∷ digits radix size n) self.new }
    {
        let blank = self.end;
        let from = blank + 1;
        let end = from + size;
        self.text[blank] = b' ';
        put_digits(&mut self.text[from..end], radix, n);
        self.end = end;
    }

    // The number of a cell, or `none` for an absent label.
    pub(crate) fn label(&mut self, label: u32)
        requires { self.old.end + 21 ≤ length self.old.text.now }
        ensures { Puts 21 self.old (label_text label) self.new }
    {
        if label == NO_LABEL {
            self.word(b" none");
        } else {
            Number::put(self, label as u64);
        }
    }

    // So many fields of a record, of 8 bytes each.
    pub(crate) fn fields<P: Piece>(&mut self, bytes: &[u8], from: usize, count: usize)
        requires room { self.old.end + P.room * count ≤ length self.old.text.now }
        requires count_bound { from + 8 * count < 2 ^ 64 }
        ensures { Puts (P.room * count) self.old (each_field P.piece count bytes.now from) self.new }
    {
        for i in 0..count {
            P::put(self, fields::u64_at(bytes, from + 8 * i));
        }
    }
}

pub fn put_word(text: &mut [u8], at: usize, word: &[u8]) -> usize
    requires { at + length word.now ≤ length text.old }
    ensures { Written (length word.now) text.old at word.now text.new result }
{
    let mut line = Line { text, end: at };
    line.word(word);
    line.end
}
