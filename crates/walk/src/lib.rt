// The walk over the records of a sheet, from the start. Offsets have 32 bits inside: a sheet has at most 16,777,216 bytes.

#![tactic(auto)]

ghost use Rattle.std.specs.Prelude.{◌≡◌, ◌+◌, ◌≤◌, ◌<◌, ◌∷◌, length};
ghost use Rattle.walk.specs.Offsets.{max_sheet_bytes, length_at, kind_at, offsets_from, offsets, Whole};
ghost use Rattle.std.specs.Iterator.{YieldsFirst, item_count};
ghost use Rattle.walk.specs.Heads.{heads_at, left};
ghost use Rattle.walk.specs.Find.{find};

mod heads; // where a record is, and its kind

use fields::{HEAD, KIND};
pub use heads::{Head, Records};

pub const MAX_SHEET_BYTES: usize = 16_777_216;

// The kind of a record that lies within the sheet.
pub fn kind_within(s: &[u8], at: u32) -> u16
    requires { Whole s.now at }
    ensures { result ≡ kind_at s.now at }
{
    fields::u16_within(s, at as usize + KIND)
}

// Where a record ends that lies within the sheet: its length is not above what is left, so that no sum wraps.
pub fn next_within(s: &[u8], at: u32) -> u32
    requires s_len_bound { length s.now ≤ max_sheet_bytes }
    requires whole { Whole s.now at }
    ensures { result ≡ at + length_at s.now at }
{
    at + fields::u32_within(s, at as usize)
}

// From where a walk goes on past the record at an offset. A record that says it is shorter than its head is the last,
// and so is one that reaches past the sheet, as one does whose head is cut short: its length is compared with what is left before it is added.
fn next_at(s: &[u8], at: u32) -> u32
    requires s_len_bound { length s.now ≤ max_sheet_bytes }
    requires within { at < length s.now }
    ensures { offsets_from s.now at ≡ at ∷ offsets_from s.now result }
{
    let size = s.len() as u32;
    if size - at < HEAD as u32 {
        return size;
    }
    let length = fields::u32_within(s, at as usize);
    if length < HEAD as u32 {
        return size;
    }
    if size - at < length {
        return size;
    }
    at + length
}

impl<'a> Iterator for Records<'a> {
    type Item = Head;

    ghost next_gives = { YieldsFirst left };

    ghost remaining = { item_count left };

    fn next(&mut self) -> Option<Head> {
        let at = self.at as usize;
        if at >= self.sheet.len() {
            return None;
        }
        self.at = next_at(self.sheet, self.at);
        Some(Head {
            at,
            kind: fields::u16_at(self.sheet, at + KIND),
        })
    }
}

// The records of a sheet from its start on, for any bytes: more than a sheet may have hold none.
pub fn records(sheet: &[u8]) -> Records<'_>
    ensures { left result ≡ heads_at sheet.now (offsets sheet.now) }
{
    if MAX_SHEET_BYTES < sheet.len() {
        return Records { sheet: &[], at: 0 };
    }
    Records { sheet, at: 0 }
}

// The offset of the record of a kind with a number, for any bytes.
pub fn find(s: &[u8], kind: u16, number: u32) -> Option<usize>
    ensures { result ≡ find s.now kind number }
{
    let mut left = number;
    for head in records(s) {
        if head.kind == kind {
            if left == 0 {
                return Some(head.at);
            }
            left -= 1;
        }
    }
    None
}
