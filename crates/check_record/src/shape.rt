// Question 3.
ghost use Rattle.std.specs.Prelude.{◌≡◌, ◌+◌, ◌≤◌, length};
ghost use Rattle.walk.specs.Offsets.{Whole};
ghost use Rattle.records.specs.Format.{cell, end_of};
ghost use Rattle.check_record.specs.Shape.{lists_at, length_ok, shape_ok};

use fields::KIND;
use records::format::{
    CELL_END, GEOMETRY_END, MAX_POINTS, MAX_VALUE_BYTES, NODE_END, NUMBER, POINT, REFERENCE_END,
    TEXT_END,
};

// How many numbers a cell's four lists have together.
#[tactic(auto, unfolding(crate::specs::Shape::lists_at))]
fn lists_at(s: &[u8], at: usize) -> u32
    requires { at + end_of cell ≤ length s.now }
    ensures { result ≡ lists_at s.now at }
{
    let counts = records::list_counts_within(s, at);
    counts.geometries as u32 + counts.texts as u32 + counts.nodes as u32 + counts.references as u32
}

// "0 to 512 value bytes", "1 to 50 points"
const TEXT_MOST: usize = TEXT_END + MAX_VALUE_BYTES;

const NODE_LEAST: usize = NODE_END + POINT;

const NODE_MOST: usize = NODE_END + MAX_POINTS * POINT;

// Whether the length n is right for a kind other than a cell's.
#[tactic(auto, using(crate::proofs::Tests::tests), unfolding(crate::specs::Shape::length_ok, crate::specs::Tests::both))]
fn length_ok(kind: u16, n: usize) -> bool
    ensures { result ≡ length_ok kind n }
{
    match kind {
        1 => n == GEOMETRY_END,
        2 => TEXT_END <= n && n <= TEXT_MOST,
        3 => NODE_LEAST <= n && n <= NODE_MOST && (n - NODE_END) % POINT == 0,
        4 => n == REFERENCE_END,
        _ => false,
    }
}

// "Is the kind 1 to 5 and the length right for it, a cell's counts included?"
#[tactic(auto, using(crate::proofs::Tests::tests), unfolding(crate::specs::Shape::shape_ok))]
pub fn shape_ok(s: &[u8], at: usize) -> bool
    requires { Whole s.now at }
    ensures { result ≡ shape_ok s.now at }
{
    let kind = fields::u16_within(s, at + KIND);
    let n = fields::u32_within(s, at) as usize;
    if kind == 5 {
        CELL_END <= n && n == CELL_END + NUMBER * lists_at(s, at) as usize
    } else {
        length_ok(kind, n)
    }
}
