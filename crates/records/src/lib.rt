// The records of a sheet: their types, under the Rust's names, and the readers at a record's offset.
// A reader whose name ends in `_within` requires that the record's fields lie within the bytes, and tests nothing.
// The others are total: what lies past the end of the bytes is read as zeros.

#![tactic(auto)]

use geometry::bbox::{Bounds, WorldBBox};
use geometry::placement::DVec2;
use grid::Grid;

pub mod format; // where each field stands
mod reader; // the reader of any record
mod parts; // what the body of a record is made of
mod items; // batches, texts, nodes and references
mod cells; // cells and their lists

pub use cells::{
    CellList, cell_at, cell_geometry_at, cell_node_at, cell_reference_at, cell_text_at,
    list_counts_within, listed_at,
};
pub use items::{geometry_at, node_at, node_point_at, reference_at, source_within, text_at};
pub use parts::{NO_LABEL, label};

// A batch.
#[derive(Clone, Copy)]
pub struct PreparedGeometry {
    pub layer: u32,
    pub data_type: u32,
    pub element_count: u32,
    pub bbox: WorldBBox,
}

#[derive(Clone, Copy)]
pub struct PreparedText {
    pub layer: u32,
    pub data_type: u32,
    pub origin: DVec2,
}

// A node, with the number of its points.
#[derive(Clone, Copy)]
pub struct PreparedNode {
    pub layer: u32,
    pub node_type: u32,
    pub points: u32,
}

// What a reference places, by its number.
#[derive(Clone, Copy)]
pub enum PreparedSource {
    Geometry(u32),
    Text(u32),
    Node(u32),
    Reference(u32),
    Cell(u32),
}

#[derive(Clone, Copy)]
pub struct PreparedReference {
    pub grid: Grid,
    pub source: PreparedSource,
    pub source_bbox: Bounds,
}

// A reference's source as its record has it: a kind and a number.
#[derive(Clone, Copy)]
pub struct SourceField {
    pub kind: u16,
    pub number: u32,
}

// How many numbers each list of a cell has, as its record has them.
#[derive(Clone, Copy)]
pub struct ListCounts {
    pub geometries: u16,
    pub texts: u16,
    pub nodes: u16,
    pub references: u16,
}

// A cell, with the length of each of its lists.
#[derive(Clone, Copy)]
pub struct PreparedCell {
    pub direct_draw_units: u64,
    pub bbox: Bounds,
    pub geometries: u32,
    pub texts: u32,
    pub nodes: u32,
    pub references: u32,
}
