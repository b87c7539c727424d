// Question 5.
ghost use Rattle.std.specs.Prelude.{◌≡◌, true, ◌+◌, ◌*◌, ◌≤◌, length};
ghost use Rattle.walk.specs.Offsets.{Whole};
ghost use Rattle.records.specs.Format.{f, node, end_of};
ghost use Rattle.check_record.specs.Tests.{every};
ghost use Rattle.check_record.specs.Shape.{shape_ok};
ghost use Rattle.check_record.specs.Floats.{finite_at, floats_from, floats_count, floats_ok};

use fields::KIND;
use floats::pattern::is_finite_pattern;
use records::format::{
    BOX, CELL_BOX, FLOAT, GEOMETRY_BOX, NODE_END, POINT, REFERENCE_END, REFERENCE_ORIGIN,
};

// Whether `count` floats side by side are finite.
fn all_finite(s: &[u8], from: usize, count: usize) -> bool
    requires { from + f * count ≤ length s.now }
    ensures { result ≡ every (finite_at s.now) f count from }
{
    for i in 0..count {
        if !is_finite_pattern(fields::u64_within(s, from + FLOAT * i)) {
            return false;
        }
    }
    true
}

#[tactic(auto, unfolding(crate::specs::Floats::floats_from))]
fn floats_from(kind: u16) -> usize
    ensures { result ≡ floats_from kind }
{
    match kind {
        1 => GEOMETRY_BOX,
        4 => REFERENCE_ORIGIN,
        5 => CELL_BOX,
        _ => NODE_END,
    }
}

// How many floats a point and a box have, and a reference from its origin to its end.
const POINT_FLOATS: usize = POINT / FLOAT;

const BOX_FLOATS: usize = BOX / FLOAT;

const REFERENCE_FLOATS: usize = (REFERENCE_END - REFERENCE_ORIGIN) / FLOAT;

#[tactic(auto, unfolding(crate::specs::Floats::floats_count))]
fn floats_count(kind: u16, n: usize) -> usize
    requires { end_of node ≤ n }
    ensures { result ≡ floats_count kind n }
{
    match kind {
        1 => BOX_FLOATS,
        2 => POINT_FLOATS,
        3 => (n - NODE_END) / FLOAT,
        4 => REFERENCE_FLOATS,
        _ => BOX_FLOATS,
    }
}

// "Is every float finite?"
pub fn floats_ok(s: &[u8], at: usize) -> bool
    requires whole { Whole s.now at }
    requires at_value { shape_ok s.now at ≡ true }
    ensures { result ≡ floats_ok s.now at }
{
    let kind = fields::u16_within(s, at + KIND);
    let n = fields::u32_within(s, at) as usize;
    all_finite(s, at + floats_from(kind), floats_count(kind, n))
}
