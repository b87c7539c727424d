// Draw units over the lent counts and marks: `reference_draw_units`, `source_draw_units` and `cell_draw_units`, in a cycle of calls with the look-up of a reference by number.
// `kinds` is how many records of each kind the sheet has: where its finder has each kind, and how wide a layer of the scratch is.
// Depth and call position fall: a reference asks its source one depth below, and a source asks a cell, which asks references, at its own depth.

#![tactic(auto)]

ghost use Rattle.std.specs.Prelude.{◌≡◌};
ghost use Rattle.look_up.specs.Look.{sheet_with};
ghost use Rattle.scratch.specs.Lent.{StaysLent};
ghost use Rattle.plan_rules.specs.Visit.{source_units};
ghost use Rattle.plan_rules.specs.DrawUnits.{counted, reference_draw_units, numbered_draw_units, source_draw_units, cell_draw_units};

use check_sheet::Counts;
use records::{PreparedReference, PreparedSource};
use scratch::{Scratch, Stack};

// A member's share of a reference's draw units.
#[tactic(auto, unfolding(plan_rules::specs::Visit::source_units))]
pub fn source_units(units: u64, count: u64) -> u64
    ensures { result ≡ source_units units count }
{
    units.checked_div(count).unwrap_or(1).max(1)
}

#[cycle(draw_units)]
#[tactic(auto, using(crate::proofs::Exits::reference_empty, crate::proofs::Exits::reference_shallow), unfolding(plan_rules::specs::Event::saturate))]
pub fn reference_draw_units(
    sheet: &[u8],
    finder: &[u32],
    kinds: Counts,
    scratch: &mut Scratch<'_>,
    reference: PreparedReference,
    depth: u32,
) -> u64
    ensures units { counted result scratch.new.counts.now scratch.new.marks.now ≡ reference_draw_units (sheet_with sheet.now finder.now kinds) kinds.cells depth reference scratch.old.counts.now scratch.old.marks.now }
    ensures lent { StaysLent scratch.old scratch.new }
{
    let count = grid::grid_count(reference.grid);
    if count == 0 {
        return 0;
    }
    if depth <= 1 {
        return count.saturating_mul(1);
    }
    let source = reference.source;
    let source_count = source_draw_units(sheet, finder, kinds, scratch, source, depth - 1);
    count.saturating_mul(source_count) // the Rust has source_count.max(1): document 02, paper 3
}

// The same of the reference that a number names.
#[cycle(draw_units)]
#[tactic(auto, using(crate::proofs::Exits::number_missing, crate::proofs::Exits::number_found))]
fn numbered_draw_units(
    sheet: &[u8],
    finder: &[u32],
    kinds: Counts,
    scratch: &mut Scratch<'_>,
    number: u32,
    depth: u32,
) -> u64
    ensures units { counted result scratch.new.counts.now scratch.new.marks.now ≡ numbered_draw_units (sheet_with sheet.now finder.now kinds) kinds.cells depth number scratch.old.counts.now scratch.old.marks.now }
    ensures lent { StaysLent scratch.old scratch.new }
{
    let Some(at) = look_up::look_up(sheet, finder, kinds, 4, number) else {
        return 0; // no sheet that passes question 7 names such a reference
    };
    let reference = records::reference_at(sheet, at);
    reference_draw_units(sheet, finder, kinds, scratch, reference, depth)
}

#[cycle(draw_units)]
#[tactic(auto, using(crate::proofs::Exits::source_cell, crate::proofs::Exits::source_reference, crate::proofs::Exits::source_geometry, crate::proofs::Exits::source_text, crate::proofs::Exits::source_node))]
fn source_draw_units(
    sheet: &[u8],
    finder: &[u32],
    kinds: Counts,
    scratch: &mut Scratch<'_>,
    source: PreparedSource,
    depth: u32,
) -> u64
    ensures units { counted result scratch.new.counts.now scratch.new.marks.now ≡ source_draw_units (sheet_with sheet.now finder.now kinds) kinds.cells depth source scratch.old.counts.now scratch.old.marks.now }
    ensures lent { StaysLent scratch.old scratch.new }
{
    match source {
        PreparedSource::Cell(cell) => cell_draw_units(sheet, finder, kinds, scratch, cell, depth),
        PreparedSource::Reference(number) => numbered_draw_units(
            sheet, finder, kinds, scratch, number, depth,
        ),
        PreparedSource::Geometry(_) => 1,
        PreparedSource::Text(_) => 1,
        PreparedSource::Node(_) => 1,
    }
}

#[cycle(draw_units)]
#[tactic(auto, using(crate::proofs::Exits::cell_missing, crate::proofs::Exits::cell_depth_zero, crate::proofs::Exits::cell_remembered, crate::proofs::Exits::cell_circle))]
fn cell_draw_units(
    sheet: &[u8],
    finder: &[u32],
    kinds: Counts,
    scratch: &mut Scratch<'_>,
    cell: u32,
    depth: u32,
) -> u64
    ensures units { counted result scratch.new.counts.now scratch.new.marks.now ≡ cell_draw_units (sheet_with sheet.now finder.now kinds) kinds.cells depth cell scratch.old.counts.now scratch.old.marks.now }
    ensures lent { StaysLent scratch.old scratch.new }
{
    let Some(at) = look_up::look_up(sheet, finder, kinds, 5, cell) else {
        return 1; // the sheet lacks the cell
    };
    let cells = kinds.cells;
    if depth == 0 {
        return 1; // asked before the cache, which has no place for it
    }
    if scratch.cache_contains(cells, depth, cell) {
        return scratch.cache_get(cells, depth, cell);
    }
    if scratch.stack_contains(cells, Stack::Complexity, cell) {
        return 1; // a circle of cells
    }
    scratch.stack_insert(cells, Stack::Complexity, cell);
    let record = records::cell_at(sheet, at);
    let references = record.references;
    let mut count = record.direct_draw_units;
    for i in 0..references {
        let number = records::cell_reference_at(sheet, at, i);
        let more = numbered_draw_units(sheet, finder, kinds, scratch, number, depth);
        count = limits::saturating_add(count, more);
    }
    scratch.stack_remove(cells, Stack::Complexity, cell);
    scratch.cache_insert(cells, depth, cell, count);
    count
}
