// `visit_cell` up to its loops: outside the view, boxed for a limit or a circle, or opened.

#![tactic(auto)]

ghost use Rattle.scratch.specs.Lent.{MarksAlone};
ghost use Rattle.enter_cell.specs.Left.{EntersCell};

use geometry::bbox::Bounds;
use geometry::placement::Placement;
use plan_rules::{Fixed, Reason, ScenePlan};
use scratch::{Scratch, Stack};
use std::ops::ControlFlow;

// A cell that is open: the plan so far, and the cell's placed box.
#[derive(Clone, Copy)]
pub struct Entered {
    pub plan: ScenePlan,
    pub bounds: Bounds,
}

// A cell that is there, by its box: its lists are left to visit, or nothing is.
pub fn enter_cell(
    fixed: Fixed,
    out: &mut [u8],
    scratch: &mut Scratch<'_>,
    plan: ScenePlan,
    cell: u32,
    bbox: Bounds,
    transform: Placement,
) -> ControlFlow<ScenePlan, Entered>
    ensures enters { EntersCell fixed cell bbox transform result out.exit scratch.new.marks plan out.entry scratch.old.marks }
    ensures others { MarksAlone scratch.old scratch.new }
{
    let bounds = geometry::bbox::transform_bounds(transform, bbox);
    if geometry::bbox::is_outside(bounds, fixed.options.view) {
        return ControlFlow::Break(plan);
    }
    let cells = fixed.counts.cells;
    let full = limits::detail_cells_full(plan);
    if full {
        let boxed = events::add_load_if_boxed(out, plan, Reason::CellLimit, cell, bounds);
        return ControlFlow::Break(boxed);
    }
    if limits::detail_budget_exhausted(fixed, plan) {
        let boxed = events::add_load_if_boxed(out, plan, Reason::OtherLimit, cell, bounds);
        return ControlFlow::Break(boxed);
    }
    if scratch.stack_contains(cells, Stack::Cell, cell) {
        let boxed = events::add_load_if_boxed(out, plan, Reason::Circle, cell, bounds);
        return ControlFlow::Break(boxed);
    }
    scratch.stack_insert(cells, Stack::Cell, cell);
    let opened = events::count_detail_cell(plan);
    ControlFlow::Continue(Entered {
        plan: opened,
        bounds,
    })
}
