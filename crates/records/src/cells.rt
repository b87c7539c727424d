// Cells, at a record's offset, and the numbers of their lists, by list place.
ghost use Rattle.std.proofs.Math.Dec.{lit<, lit≤};
ghost use Rattle.std.specs.Prelude.{◌≡◌, ◌+◌, ◌≤◌, ◌<◌, length};
ghost use Rattle.records.specs.Format.{cell, end_of};
ghost use Rattle.records.specs.Records.{cell_at, list_counts_at, start_of, listed_at, cell_geometry_at, cell_text_at, cell_node_at, cell_reference_at};

use crate::format::{
    CELL_BOX, CELL_END, CELL_FLAGS, DRAW_UNITS, GEOMETRY_COUNT, NODE_COUNT, NUMBER,
    REFERENCE_COUNT, TEXT_COUNT,
};
use crate::parts::{bit, bounds_within, from};
use crate::reader::{Record, read_at};
use crate::{ListCounts, PreparedCell};

pub fn list_counts_within(s: &[u8], at: usize) -> ListCounts
    requires { at + end_of cell ≤ length s.now }
    ensures { result ≡ list_counts_at s.now at }
{
    ListCounts {
        geometries: fields::u16_within(s, at + GEOMETRY_COUNT),
        texts: fields::u16_within(s, at + TEXT_COUNT),
        nodes: fields::u16_within(s, at + NODE_COUNT),
        references: fields::u16_within(s, at + REFERENCE_COUNT),
    }
}

impl Record for PreparedCell {
    const END: usize = CELL_END;

    ghost END = { end_of cell };

    ghost read = { cell_at };

    #[tactic(auto, unfolding(crate::specs::Records::cell_at))]
    fn within(s: &[u8], at: usize) -> PreparedCell {
        let counts = list_counts_within(s, at);
        PreparedCell {
            direct_draw_units: fields::u64_within(s, at + DRAW_UNITS),
            bbox: bounds_within(
                s,
                at + CELL_BOX,
                bit(fields::u16_within(s, at + CELL_FLAGS), 0),
            ),
            geometries: counts.geometries as u32,
            texts: counts.texts as u32,
            nodes: counts.nodes as u32,
            references: counts.references as u32,
        }
    }

    ghost size = { (lit< tt, lit≤ tt) };
}

#[tactic(auto, using(crate::proofs::EachKind::cell_in))]
pub fn cell_at(s: &[u8], at: usize) -> PreparedCell
    ensures { result ≡ cell_at s.now at }
{
    read_at(s, at, 0)
}

// ---- The lists of a cell, by list place

// One of the four lists of a cell, which stand one after the other.
#[derive(Clone, Copy)]
pub enum CellList {
    Geometries,
    Texts,
    Nodes,
    References,
}

// Where a list starts among the numbers of a cell: behind the lists before it.
fn start_of(s: &[u8], at: usize, list: CellList) -> usize
    ensures { (result ≡ start_of list s.now at) × (result < 196608) }
{
    let record = from(s, at);
    let texts = fields::u16_at(record, GEOMETRY_COUNT) as usize;
    let nodes = texts + fields::u16_at(record, TEXT_COUNT) as usize;
    let references = nodes + fields::u16_at(record, NODE_COUNT) as usize;
    match list {
        CellList::Geometries => 0,
        CellList::Texts => texts,
        CellList::Nodes => nodes,
        CellList::References => references,
    }
}

// The number at a place of a list of a cell.
pub fn listed_at(s: &[u8], at: usize, list: CellList, i: u32) -> u32
    ensures { result ≡ listed_at list s.now at i }
{
    let place = start_of(s, at, list) + i as usize;
    fields::u32_at(from(s, at), CELL_END + NUMBER * place)
}

#[tactic(auto, unfolding(crate::specs::Records::cell_geometry_at))]
pub fn cell_geometry_at(s: &[u8], at: usize, i: u32) -> u32
    ensures { result ≡ cell_geometry_at s.now at i }
{
    listed_at(s, at, CellList::Geometries, i)
}

#[tactic(auto, unfolding(crate::specs::Records::cell_text_at))]
pub fn cell_text_at(s: &[u8], at: usize, i: u32) -> u32
    ensures { result ≡ cell_text_at s.now at i }
{
    listed_at(s, at, CellList::Texts, i)
}

#[tactic(auto, unfolding(crate::specs::Records::cell_node_at))]
pub fn cell_node_at(s: &[u8], at: usize, i: u32) -> u32
    ensures { result ≡ cell_node_at s.now at i }
{
    listed_at(s, at, CellList::Nodes, i)
}

#[tactic(auto, unfolding(crate::specs::Records::cell_reference_at))]
pub fn cell_reference_at(s: &[u8], at: usize, i: u32) -> u32
    ensures { result ≡ cell_reference_at s.now at i }
{
    listed_at(s, at, CellList::References, i)
}
