// Question 4.
ghost use Rattle.std.specs.Prelude.{◌≡◌, true, ◌+◌, ◌*◌, ◌≤◌, length};
ghost use Rattle.walk.specs.Offsets.{Whole};
ghost use Rattle.records.specs.Format.{f, reference, cell, end_of};
ghost use Rattle.check_record.specs.Shape.{shape_ok};
ghost use Rattle.check_record.specs.Values.{zero_box, source_ok, grid_ok, reference_ok, cell_ok, values_ok};

use fields::KIND;
use records::format::{
    CELL_BOX, CELL_FLAGS, COLUMNS, FLOAT, MAX_GRID_SIDE, REFERENCE_FLAGS, ROWS, SOURCE_BOX,
};

// Where the floats of a box stand behind its first.
const MIN_Y: usize = FLOAT;

const MAX_X: usize = 2 * FLOAT;

const MAX_Y: usize = 3 * FLOAT;

// "An absent box is 32 zero bytes."
#[tactic(auto, using(crate::proofs::Tests::tests, crate::proofs::Facts::Numbers::zero_box_fields), unfolding(crate::specs::Tests::both))]
fn zero_box(s: &[u8], at: usize) -> bool
    requires { at + 4 * f ≤ length s.now }
    ensures { result ≡ zero_box s.now at }
{
    fields::u64_within(s, at) == 0
        && fields::u64_within(s, at + MIN_Y) == 0
        && fields::u64_within(s, at + MAX_X) == 0
        && fields::u64_within(s, at + MAX_Y) == 0
}

// "the source kind 1 to 5, and a cell source below FFFFFFFF (hexadecimal)"
#[tactic(auto, using(crate::proofs::Tests::tests), unfolding(crate::specs::Values::source_ok, crate::specs::Tests::both))]
fn source_ok(kind: u16, number: u32) -> bool
    ensures { result ≡ source_ok kind number }
{
    1 <= kind && kind <= 5 && (kind != 5 || number < records::NO_LABEL)
}

// What is asked of a reference's numbers, where it is known whether its source is right and whether its box is all zero.
#[tactic(auto, using(crate::proofs::Tests::tests), unfolding(crate::specs::Values::grid_ok, crate::specs::Tests::both))]
fn grid_ok(columns: u16, rows: u16, flags: u16, source: bool, zeros: bool) -> bool
    ensures { result ≡ grid_ok columns rows flags source zeros }
{
    columns <= MAX_GRID_SIDE
        && rows <= MAX_GRID_SIDE
        && flags < 4
        && source
        && (flags / 2 % 2 == 1 || zeros)
}

#[tactic(auto, unfolding(crate::specs::Values::reference_ok))]
fn reference_ok(s: &[u8], at: usize) -> bool
    requires { at + end_of reference ≤ length s.now }
    ensures { result ≡ reference_ok s.now at }
{
    let field = records::source_within(s, at);
    let source = source_ok(field.kind, field.number);
    let zeros = zero_box(s, at + SOURCE_BOX);
    let columns = fields::u16_within(s, at + COLUMNS);
    let rows = fields::u16_within(s, at + ROWS);
    let flags = fields::u16_within(s, at + REFERENCE_FLAGS);
    grid_ok(columns, rows, flags, source, zeros)
}

#[tactic(auto, using(crate::proofs::Tests::tests), unfolding(crate::specs::Values::cell_ok, crate::specs::Tests::both))]
fn cell_ok(s: &[u8], at: usize) -> bool
    requires { at + end_of cell ≤ length s.now }
    ensures { result ≡ cell_ok s.now at }
{
    let flags = fields::u16_within(s, at + CELL_FLAGS);
    flags < 2 && (flags == 1 || zero_box(s, at + CELL_BOX))
}

// "Are columns and rows at most 32,767, spare flag bits zero, absent boxes zero, the source kind 1 to 5,
// and a cell source below FFFFFFFF (hexadecimal)?"
#[tactic(auto, using(crate::proofs::Tests::tests), unfolding(crate::specs::Values::values_ok))]
pub fn values_ok(s: &[u8], at: usize) -> bool
    requires whole { Whole s.now at }
    requires at_value { shape_ok s.now at ≡ true }
    ensures { result ≡ values_ok s.now at }
{
    let kind = fields::u16_within(s, at + KIND);
    match kind {
        4 => reference_ok(s, at),
        5 => cell_ok(s, at),
        _ => true,
    }
}
