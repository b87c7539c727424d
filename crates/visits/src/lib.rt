// The visits: `visit_cell`, `visit_reference` and `visit_source` of bevy_scene.rs, three functions in a cycle of calls.
// Depth and call position fall: a reference visits its source one depth below, a source a cell or a reference, and a cell its references, at its own depth.
// Each is total. What it leaves of the plan, the output and the scratch is what the rules' definition of the same name says.

#![tactic(auto)]

ghost use Rattle.std.specs.Prelude.{◌≡◌};
ghost use Rattle.scratch.specs.Lent.{StaysLent};
ghost use Rattle.plan_rules.specs.OnTape.{given_of, lent, flow_of, visit_cell, visit_reference, visit_source};

use geometry::placement::Placement;
use plan_rules::{Given, Halted, ScenePlan};
use records::PreparedSource;
use scratch::{Scratch, Stack};
use std::ops::ControlFlow;
use try_member::Tried;
use visit_items::{Geometries, Nodes, OpenCell, Texts};

#[cycle(visits)]
pub fn visit_cell(
    given: &Given<'_>,
    out: &mut [u8],
    scratch: &mut Scratch<'_>,
    plan: ScenePlan,
    cell: u32,
    transform: Placement,
    depth: u32,
) -> ScenePlan
    ensures visits { lent result out.exit scratch.new.counts scratch.new.marks
        ≡ visit_cell (given_of given.now) depth cell transform (lent plan out.entry scratch.old.counts scratch.old.marks) }
    ensures others { StaysLent scratch.old scratch.new }
{
    let fixed = given.fixed;
    let Some(at) = look_up::look_up(given.sheet, given.finder, fixed.counts, 5, cell) else {
        return plan; // the sheet lacks the cell
    };
    let record = records::cell_at(given.sheet, at);
    let bbox = record.bbox;
    let entered = match enter_cell::enter_cell(fixed, out, scratch, plan, cell, bbox, transform) {
        ControlFlow::Continue(entered) => entered,
        ControlFlow::Break(over) => return over,
    };
    let open_cell = OpenCell {
        number: cell,
        at,
        record,
        transform,
        bounds: entered.bounds,
    };
    let mut next = match open_cell.push_items(given, out, entered.plan) {
        Ok(listed) => listed,
        Err(halted) => {
            scratch.stack_remove(fixed.counts.cells, Stack::Cell, cell);
            return halted.plan;
        }
    };
    for i in 0..record.references {
        if limits::detail_budget_exhausted(fixed, next) {
            let boxed = open_cell.load(out, next);
            scratch.stack_remove(fixed.counts.cells, Stack::Cell, cell);
            return boxed;
        }
        let reference = records::cell_reference_at(given.sheet, at, i);
        next = visit_reference(given, out, scratch, next, reference, transform, depth);
    }
    scratch.stack_remove(fixed.counts.cells, Stack::Cell, cell);
    next
}

#[cycle(visits)]
fn visit_reference(
    given: &Given<'_>,
    out: &mut [u8],
    scratch: &mut Scratch<'_>,
    plan: ScenePlan,
    number: u32,
    transform: Placement,
    depth: u32,
) -> ScenePlan
    ensures visits { lent result out.exit scratch.new.counts scratch.new.marks
        ≡ visit_reference (given_of given.now) depth number transform (lent plan out.entry scratch.old.counts scratch.old.marks) }
    ensures others { StaysLent scratch.old scratch.new }
{
    let fixed = given.fixed;
    let Some(at) = look_up::look_up(given.sheet, given.finder, fixed.counts, 4, number) else {
        return plan; // no sheet that passes question 7 names such a reference
    };
    let record = records::reference_at(given.sheet, at);
    let reference = match open_reference::open_reference(fixed, out, plan, &record, transform) {
        ControlFlow::Continue(reference) => reference,
        ControlFlow::Break(over) => return over,
    };
    let source = reference.record.source;
    let label = records::label(source);
    let world_bbox = reference.world_bbox;
    let count = grid::grid_count(reference.record.grid);
    let draw_units = units::reference_draw_units(
        given.sheet,
        given.finder,
        fixed.counts,
        scratch,
        *reference.record,
        depth,
    );
    if let Some(test) = reference.reference_test(fixed, count, draw_units, depth) {
        let why = events::collapse_reason(Some(test));
        return events::add_load(out, plan, why, label, world_bbox);
    }
    let share = units::source_units(draw_units, count);
    let mut next = plan;
    for i in 0..count {
        match try_member::try_member(fixed, out, next, &reference, share, i, depth) {
            Tried::Passed(passed) => next = passed,
            Tried::Halted(halted) => return halted,
            Tried::Opens { placement, bbox } => {
                let below = depth - 1;
                match visit_source(given, out, scratch, next, source, placement, below) {
                    Ok(visited) => next = visited,
                    Err(halted) => {
                        return try_member::load_member(out, halted.plan, label, bbox, world_bbox);
                    }
                }
            }
        }
    }
    next
}

// An `Err` if a limit stopped the points of a node.
#[cycle(visits)]
fn visit_source(
    given: &Given<'_>,
    out: &mut [u8],
    scratch: &mut Scratch<'_>,
    plan: ScenePlan,
    source: PreparedSource,
    transform: Placement,
    depth: u32,
) -> Result<ScenePlan, Halted>
    ensures visits { flow_of result (λ p. lent p out.exit scratch.new.counts scratch.new.marks)
        ≡ visit_source (given_of given.now) depth source transform (lent plan out.entry scratch.old.counts scratch.old.marks) }
    ensures others { StaysLent scratch.old scratch.new }
{
    // A batch, a text or a node goes through the loop over numbers as a list of one, so that its push has one call; the list's offset, 0, is not read.
    match source {
        PreparedSource::Cell(cell) => {
            Ok(visit_cell(given, out, scratch, plan, cell, transform, depth))
        }
        PreparedSource::Geometry(number) => {
            visit_items::push_numbers::<Geometries>(given, out, plan, number, 0, 1, transform)
        }
        PreparedSource::Text(number) => {
            visit_items::push_numbers::<Texts>(given, out, plan, number, 0, 1, transform)
        }
        PreparedSource::Node(number) => {
            visit_items::push_numbers::<Nodes>(given, out, plan, number, 0, 1, transform)
        }
        PreparedSource::Reference(number) => {
            Ok(visit_reference(given, out, scratch, plan, number, transform, depth))
        }
    }
}
