// What the body of a record is made of: points, boxes, flags and sources.
ghost use Rattle.std.proofs.Math.Dec.{lit<, lit≤};
ghost use Rattle.std.specs.Prelude.{◌≡◌, ℕ, ◌+◌, ◌-◌, ◌*◌, ◌<◌, ◌≤◌, length, drop};
ghost use Rattle.fields.specs.Field.{uint_at};
ghost use Rattle.records.specs.Format.{f, reference, end_of};
ghost use Rattle.records.specs.Records.{dvec2_at, world_bbox_at, bounds_at, bit, source_of};
ghost use Rattle.records.specs.Sources.{label};

use crate::PreparedSource;
use crate::format::{FLOAT, POINT, REFERENCE_END};
use crate::reader::Record;
use floats::pattern::{f64_from_bits, is_finite_pattern};
use geometry::bbox::{Bounds, WorldBBox};
use geometry::placement::DVec2;

// How many bytes there are from an offset on.
pub fn length_from(s: &[u8], at: usize) -> usize
    ensures { result ≡ length s.now - at }
{
    s.len().saturating_sub(at)
}

// The bytes from an offset on.
pub fn from(s: &[u8], at: usize) -> &[u8]
    ensures { result.now ≡ drop at s.now }
{
    let start = at.min(s.len());
    &s[start..]
}

// The bytes from an offset on, at most as many as the longest record has, and zeros after them.
pub fn padded(s: &[u8], at: usize) -> [u8; REFERENCE_END]
    requires { length s.now - at ≤ end_of reference }
    ensures { (j k : ℕ) → uint_at k result j ≡ uint_at k s.now (at + j) }
{
    let mut out = [0; REFERENCE_END];
    let tail = from(s, at);
    out[..tail.len()].copy_from_slice(tail);
    out
}

impl Record for DVec2 {
    const END: usize = POINT;

    ghost END = { 2 * f };

    ghost read = { dvec2_at };

    #[tactic(auto, unfolding(crate::specs::Records::dvec2_at))]
    fn within(s: &[u8], at: usize) -> DVec2 {
        DVec2::new(fields::f64_within(s, at), fields::f64_within(s, at + FLOAT))
    }

    ghost size = { (lit< tt, lit≤ tt) };
}

pub fn world_bbox_within(s: &[u8], at: usize) -> WorldBBox
    requires { at + 4 * f ≤ length s.now }
    ensures { result ≡ world_bbox_at s.now at }
{
    let min_x = fields::u64_within(s, at);
    let min_y = fields::u64_within(s, at + FLOAT);
    let max_x = fields::u64_within(s, at + 2 * FLOAT);
    let max_y = fields::u64_within(s, at + 3 * FLOAT);
    // Kept: joined by `&`, the four tests have one branch; `all` over them has four. A finite pattern is no NaN's: its float needs no test.
    if is_finite_pattern(min_x)
        & is_finite_pattern(min_y)
        & is_finite_pattern(max_x)
        & is_finite_pattern(max_y)
    {
        return WorldBBox {
            min_x: f64::from_bits(min_x),
            min_y: f64::from_bits(min_y),
            max_x: f64::from_bits(max_x),
            max_y: f64::from_bits(max_y),
        };
    }
    WorldBBox {
        min_x: f64_from_bits(min_x),
        min_y: f64_from_bits(min_y),
        max_x: f64_from_bits(max_x),
        max_y: f64_from_bits(max_y),
    }
}

// The box at an offset, if it is present.
#[tactic(auto, unfolding(crate::specs::Records::bounds_at, crate::specs::Records::world_bbox_at, geometry::specs::Bbox::boxed))]
pub fn bounds_within(s: &[u8], at: usize, present: bool) -> Bounds
    requires { at + 4 * f ≤ length s.now }
    ensures { result ≡ bounds_at s.now at present }
{
    if present {
        Bounds::from(world_bbox_within(s, at))
    } else {
        Bounds::Absent
    }
}

// A bit of the flags.
#[tactic(auto, unfolding(crate::specs::Records::bit))]
pub fn bit(flags: u16, place: u32) -> bool
    requires { place < 16 }
    ensures { result ≡ bit flags place }
{
    (flags >> place) % 2 == 1
}

// Kept: a kind is the record's own u16, and each is answered for; an enum of the five would ask more of callers.
#[tactic(auto, unfolding(crate::specs::Records::source_of))]
pub fn source_of(kind: u16, number: u32) -> PreparedSource
    ensures { result ≡ source_of kind number }
{
    match kind {
        1 => PreparedSource::Geometry(number),
        2 => PreparedSource::Text(number),
        3 => PreparedSource::Node(number),
        4 => PreparedSource::Reference(number),
        _ => PreparedSource::Cell(number),
    }
}

// "cell number as label, or FFFFFFFF (hexadecimal) for none"
// Kept: the tape's own encoding of none, which `label` gives as its contract says.
pub const NO_LABEL: u32 = 0xffff_ffff;

// `reference.label`
#[tactic(auto, unfolding(crate::specs::Sources::label))]
pub fn label(source: PreparedSource) -> u32
    ensures { result ≡ label source }
{
    match source {
        PreparedSource::Cell(cell) => cell,
        _ => NO_LABEL,
    }
}
