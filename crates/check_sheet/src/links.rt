// The second pass: question 7, of each reference and cell.
ghost use Rattle.std.specs.Prelude.{◌≡◌, ◌+◌, ◌*◌, ◌≤◌, length, Ok};
ghost use Rattle.walk.specs.Offsets.{max_sheet_bytes, offsets};
ghost use Rattle.walk.specs.Every.{All};
ghost use Rattle.records.specs.Format.{number_width, cell, end_of};
ghost use Rattle.check_record.specs.Tests.{every};
ghost use Rattle.check_record.specs.Shape.{lists_at};
ghost use Rattle.check_record.specs.Record.{Right};
ghost use Rattle.check_sheet.specs.Count.{counts_of};
ghost use Rattle.check_sheet.specs.Links.{source_named, below_at, lists_named, link_ok};
ghost use Rattle.check_sheet.specs.Check.{first_unnamed};

use crate::scan::tally;
use crate::{Counts, SheetError};
use fields::KIND;
use records::format::{CELL_END, NUMBER};

// Whether `count` numbers side by side are below a bound.
fn all_below(s: &[u8], from: usize, count: usize, bound: u32) -> bool
    requires { from + number_width * count ≤ length s.now }
    ensures { result ≡ every (below_at s.now bound) number_width count from }
{
    for i in 0..count {
        if bound <= fields::u32_within(s, from + NUMBER * i) {
            return false;
        }
    }
    true
}

// Whether a source names an existing record, and a reference source one before its own number. A cell source may name any.
#[tactic(auto, unfolding(crate::specs::Links::source_named))]
fn source_named(kind: u16, number: u32, c: Counts, own: u32) -> bool
    ensures { result ≡ source_named kind number c own }
{
    match kind {
        1 => number < c.geometries,
        2 => number < c.texts,
        3 => number < c.nodes,
        4 => number < own,
        _ => true,
    }
}

// Whether every number in a cell names an existing record.
#[tactic(auto, unfolding(crate::specs::Links::lists_named, check_record::specs::Tests::both))]
fn lists_named(s: &[u8], c: Counts, at: usize) -> bool
    requires { at + end_of cell + number_width * lists_at s.now at ≤ length s.now }
    ensures { result ≡ lists_named s.now c at }
{
    let counts = records::list_counts_within(s, at);
    let geometries = counts.geometries as usize;
    let texts = counts.texts as usize;
    let nodes = counts.nodes as usize;
    let references = counts.references as usize;
    let from_texts = at + CELL_END + NUMBER * geometries;
    let from_nodes = from_texts + NUMBER * texts;
    let from_references = from_nodes + NUMBER * nodes;
    all_below(s, at + CELL_END, geometries, c.geometries)
        && all_below(s, from_texts, texts, c.texts)
        && all_below(s, from_nodes, nodes, c.nodes)
        && all_below(s, from_references, references, c.references)
}

// Whether what the record names exists, where `own` is the number that a reference here has.
#[tactic(auto, using(check_record::proofs::Tests::tests), unfolding(crate::specs::Links::link_ok))]
fn link_ok(s: &[u8], c: Counts, own: u32, at: usize) -> bool
    requires { Right s.now at }
    ensures { result ≡ link_ok s.now c own at }
{
    let kind = fields::u16_within(s, at + KIND);
    match kind {
        4 => {
            let source = records::source_within(s, at);
            source_named(source.kind, source.number, c, own)
        }
        5 => lists_named(s, c, at),
        _ => true,
    }
}

// The first record that names what is missing, or the counts of a sound sheet. Nothing is left to ask after the last reference or cell.
pub fn links(s: &[u8], c: Counts) -> Result<Counts, SheetError>
    requires s_len_bound { length s.now ≤ max_sheet_bytes }
    requires all { All (Right s.now) (offsets s.now) }
    requires c_value { c ≡ counts_of s.now }
    ensures { result ≡ first_unnamed s.now c 0 (offsets s.now) (Ok c) }
{
    let mut at = 0u32;
    let mut own = 0;
    let mut to_ask = c.references as usize + c.cells as usize;
    // Kept: `for head in walk::records(s)` was proved, with a test of `to_ask`; `check_sheet` took 5 % longer on records of all kinds mixed.
    while 0 < to_ask {
        let index = at as usize;
        let kind = walk::kind_within(s, at);
        if 3 < kind {
            if !link_ok(s, c, own, index) {
                return Err(SheetError::NamesMissing(index));
            }
            own = tally(own, kind, 4);
            to_ask -= 1;
        }
        at = walk::next_within(s, at);
    }
    Ok(c)
}
