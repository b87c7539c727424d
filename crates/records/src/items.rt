// Batches, texts, nodes and references, at a record's offset.
ghost use Rattle.std.proofs.Math.Dec.{lit<, lit≤};
ghost use Rattle.std.specs.Prelude.{◌≡◌, ◌+◌, ◌≤◌, length};
ghost use Rattle.records.specs.Format.{geometry, text, node, reference, end_of};
ghost use Rattle.records.specs.Records.{geometry_at, text_at, points_of, node_at, node_point_at, grid_at, reference_at, source_field_at};

use crate::format::{
    COLUMNS, COS, ELEMENT_COUNT, GEOMETRY_BOX, GEOMETRY_DATA_TYPE, GEOMETRY_END, GEOMETRY_LAYER,
    MAGNIFICATION, NODE_END, NODE_LAYER, NODE_TYPE, POINT, REFERENCE_END, REFERENCE_FLAGS,
    REFERENCE_ORIGIN, ROWS, SIN, SOURCE_BOX, SOURCE_KIND, SOURCE_NUMBER, SPACING_X, SPACING_Y,
    TEXT_DATA_TYPE, TEXT_END, TEXT_LAYER, TEXT_ORIGIN,
};
use crate::parts::{bit, bounds_within, source_of, world_bbox_within};
use crate::reader::{Record, read_at};
use crate::{
    PreparedGeometry, PreparedNode, PreparedReference, PreparedSource, PreparedText, SourceField,
};
use geometry::bbox::Bounds;
use geometry::placement::DVec2;
use grid::Grid;

impl Record for PreparedGeometry {
    const END: usize = GEOMETRY_END;

    ghost END = { end_of geometry };

    ghost read = { geometry_at };

    #[tactic(auto, unfolding(crate::specs::Records::geometry_at))]
    fn within(s: &[u8], at: usize) -> PreparedGeometry {
        PreparedGeometry {
            layer: fields::u16_within(s, at + GEOMETRY_LAYER) as u32,
            data_type: fields::u16_within(s, at + GEOMETRY_DATA_TYPE) as u32,
            element_count: fields::u32_within(s, at + ELEMENT_COUNT),
            bbox: world_bbox_within(s, at + GEOMETRY_BOX),
        }
    }

    ghost size = { (lit< tt, lit≤ tt) };
}

#[tactic(auto, using(crate::proofs::EachKind::geometry_in))]
pub fn geometry_at(s: &[u8], at: usize) -> PreparedGeometry
    ensures { result ≡ geometry_at s.now at }
{
    read_at(s, at, 0)
}

impl Record for PreparedText {
    const END: usize = TEXT_END;

    ghost END = { end_of text };

    ghost read = { text_at };

    #[tactic(auto, unfolding(crate::specs::Records::text_at))]
    fn within(s: &[u8], at: usize) -> PreparedText {
        PreparedText {
            layer: fields::u16_within(s, at + TEXT_LAYER) as u32,
            data_type: fields::u16_within(s, at + TEXT_DATA_TYPE) as u32,
            origin: DVec2::within(s, at + TEXT_ORIGIN),
        }
    }

    ghost size = { (lit< tt, lit≤ tt) };
}

#[tactic(auto, using(crate::proofs::EachKind::text_in))]
pub fn text_at(s: &[u8], at: usize) -> PreparedText
    ensures { result ≡ text_at s.now at }
{
    read_at(s, at, 0)
}

// How many points a node of a length has.
fn points_of(length: u32) -> u32
    ensures { result ≡ points_of length }
{
    length.saturating_sub(NODE_END as u32) / POINT as u32
}

impl Record for PreparedNode {
    const END: usize = NODE_END;

    ghost END = { end_of node };

    ghost read = { node_at };

    #[tactic(auto, unfolding(crate::specs::Records::node_at))]
    fn within(s: &[u8], at: usize) -> PreparedNode {
        PreparedNode {
            layer: fields::u16_within(s, at + NODE_LAYER) as u32,
            node_type: fields::u16_within(s, at + NODE_TYPE) as u32,
            points: points_of(fields::u32_within(s, at)),
        }
    }

    ghost size = { (lit< tt, lit≤ tt) };
}

#[tactic(auto, using(crate::proofs::EachKind::node_in))]
pub fn node_at(s: &[u8], at: usize) -> PreparedNode
    ensures { result ≡ node_at s.now at }
{
    read_at(s, at, 0)
}

// A point of a node, counted from 0.
#[tactic(auto, using(crate::proofs::EachKind::point_in), unfolding(crate::specs::Records::node_point_at))]
pub fn node_point_at(s: &[u8], at: usize, i: u32) -> DVec2
    ensures { result ≡ node_point_at s.now at i }
{
    read_at(s, at, NODE_END + POINT * (i as usize))
}

#[tactic(auto, unfolding(crate::specs::Records::grid_at))]
fn grid_within(s: &[u8], at: usize) -> Grid
    requires { at + end_of reference ≤ length s.now }
    ensures { result ≡ grid_at s.now at }
{
    Grid {
        columns: fields::u16_within(s, at + COLUMNS) as u32,
        rows: fields::u16_within(s, at + ROWS) as u32,
        x_reflection: bit(fields::u16_within(s, at + REFERENCE_FLAGS), 0),
        origin: DVec2::within(s, at + REFERENCE_ORIGIN),
        spacing_x: DVec2::within(s, at + SPACING_X),
        spacing_y: DVec2::within(s, at + SPACING_Y),
        magnification: fields::f64_within(s, at + MAGNIFICATION),
        cos: fields::f64_within(s, at + COS),
        sin: fields::f64_within(s, at + SIN),
    }
}

pub fn source_within(s: &[u8], at: usize) -> SourceField
    requires { at + end_of reference ≤ length s.now }
    ensures { result ≡ source_field_at s.now at }
{
    SourceField {
        kind: fields::u16_within(s, at + SOURCE_KIND),
        number: fields::u32_within(s, at + SOURCE_NUMBER),
    }
}

#[tactic(auto, unfolding(crate::specs::Records::reference_at))]
fn prepared_source_within(s: &[u8], at: usize) -> PreparedSource
    requires { at + end_of reference ≤ length s.now }
    ensures { result ≡ (reference_at s.now at).source }
{
    let source = source_within(s, at);
    source_of(source.kind, source.number)
}

#[tactic(auto, unfolding(crate::specs::Records::reference_at))]
fn source_bbox_within(s: &[u8], at: usize) -> Bounds
    requires { at + end_of reference ≤ length s.now }
    ensures { result ≡ (reference_at s.now at).source_bbox }
{
    bounds_within(
        s,
        at + SOURCE_BOX,
        bit(fields::u16_within(s, at + REFERENCE_FLAGS), 1),
    )
}

impl Record for PreparedReference {
    const END: usize = REFERENCE_END;

    ghost END = { end_of reference };

    ghost read = { reference_at };

    // Inlined at both of its calls, so that the compiler builds the answer in place.
    #[tactic(auto, unfolding(crate::specs::Records::reference_at))]
    #[inline(always)]
    fn within(s: &[u8], at: usize) -> PreparedReference {
        PreparedReference {
            grid: grid_within(s, at),
            source: prepared_source_within(s, at),
            source_bbox: source_bbox_within(s, at),
        }
    }

    ghost size = { (lit< tt, lit≤ tt) };
}

#[tactic(auto, using(crate::proofs::EachKind::reference_in))]
pub fn reference_at(s: &[u8], at: usize) -> PreparedReference
    ensures { result ≡ reference_at s.now at }
{
    read_at(s, at, 0)
}
