// Lists of batches, texts and nodes: one number that a reference places, and a cell's lists. Those of a cell go in one call, so that the visit of a cell has one loop left: that over its references.

#![tactic(auto)]

use geometry::bbox::Bounds;
use geometry::placement::Placement;
use records::PreparedCell;

mod items; // what differs between batches, texts and nodes
mod lists; // the loop over numbers
mod cell; // the lists of an open cell

pub use items::{Geometries, Items, Nodes, Texts};
pub use lists::push_numbers;

// A cell that is open: its number, where its record stands, the record, and where the cell is placed, with its box there.
#[derive(Clone, Copy)]
pub struct OpenCell {
    pub number: u32,
    pub at: usize,
    pub record: PreparedCell,
    pub transform: Placement,
    pub bounds: Bounds,
}
