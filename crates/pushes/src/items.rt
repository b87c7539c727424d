// Batches, texts and nodes by number: `push_geometry`, `push_text` and `push_node`. A number that the sheet lacks lists nothing.
ghost use Rattle.abstract_sheet.specs.Sheet.{node_record_at};
ghost use Rattle.plan_rules.specs.OnTape.{given_of, Leaves, LeavesFlow, push_geometry, push_text, push_point, push_points, push_node};

use crate::hidden::is_hidden;
use events::{
    add_load, count_culled_batch, count_skipped_batch, list_batch, list_point, list_text,
};
use geometry::bbox::{point_in_bbox, transform_bbox};
use geometry::placement::Placement;
use limits::detail_budget_exhausted;
use plan_rules::{Given, Halted, Reason, ScenePlan};
use records::NO_LABEL;
use screen::{is_dense_batch, is_subpixel, screen_size};

// Kept: each push looks up, reads and asks the hidden layers itself: one helper for the three would be a trait over their records, longer than these lines.

pub fn push_geometry(
    given: &Given<'_>,
    out: &mut [u8],
    plan: ScenePlan,
    number: u32,
    transform: Placement,
) -> ScenePlan
    ensures { Leaves result out.exit (push_geometry (given_of given.now) number transform) plan out.entry }
{
    let Some(at) = look_up::look_up(given.sheet, given.finder, given.fixed.counts, 1, number) else {
        return plan;
    };
    let geometry = records::geometry_at(given.sheet, at);
    if is_hidden(given.hidden, geometry.layer, geometry.data_type) {
        return plan;
    }
    let bbox = transform_bbox(transform, geometry.bbox);
    if !bbox.overlaps(given.fixed.options.view) {
        return count_culled_batch(plan);
    }
    let size = screen_size(bbox, given.fixed.options.zoom);
    if is_subpixel(size) {
        return count_skipped_batch(plan);
    }
    if is_dense_batch(size, geometry.element_count) {
        return add_load(out, plan, Reason::DenseBatch, NO_LABEL, bbox);
    }
    if detail_budget_exhausted(given.fixed, plan) {
        return add_load(out, plan, Reason::OtherLimit, NO_LABEL, bbox);
    }
    list_batch(out, plan, number, transform)
}

// The budget is not asked here: `visit_cell` asks it before each text and `visit_reference` before each member, as in the Rust.
pub fn push_text(
    given: &Given<'_>,
    out: &mut [u8],
    plan: ScenePlan,
    number: u32,
    transform: Placement,
) -> ScenePlan
    ensures { Leaves result out.exit (push_text (given_of given.now) number transform) plan out.entry }
{
    let Some(at) = look_up::look_up(given.sheet, given.finder, given.fixed.counts, 2, number) else {
        return plan;
    };
    let text = records::text_at(given.sheet, at);
    if is_hidden(given.hidden, text.layer, text.data_type) {
        return plan;
    }
    let position = transform.transform_point2(text.origin);
    if !point_in_bbox(position, given.fixed.options.view) {
        return plan;
    }
    list_text(out, plan, number, position)
}

// Point i of the node at an offset: passed over outside the view, and an `Err` where it is in view and the budget is exhausted.
fn push_point(
    given: &Given<'_>,
    out: &mut [u8],
    plan: ScenePlan,
    at: usize,
    transform: Placement,
    i: u32,
) -> Result<ScenePlan, Halted>
    ensures { LeavesFlow result out.exit (push_point (given_of given.now) transform (node_record_at given.now.sheet.now at) i) plan out.entry }
{
    let position = transform.transform_point2(records::node_point_at(given.sheet, at, i));
    if !point_in_bbox(position, given.fixed.options.view) {
        return Ok(plan);
    }
    if detail_budget_exhausted(given.fixed, plan) {
        return Err(Halted { plan });
    }
    let node = records::node_at(given.sheet, at);
    Ok(list_point(out, plan, node.layer, node.node_type, position))
}

// The points of the node at an offset.
fn push_points(
    given: &Given<'_>,
    out: &mut [u8],
    mut plan: ScenePlan,
    at: usize,
    transform: Placement,
) -> Result<ScenePlan, Halted>
    ensures { LeavesFlow result out.exit (push_points (given_of given.now) transform (node_record_at given.now.sheet.now at)) plan out.entry }
{
    for i in 0..records::node_at(given.sheet, at).points {
        plan = push_point(given, out, plan, at, transform, i)?;
    }
    Ok(plan)
}

pub fn push_node(
    given: &Given<'_>,
    out: &mut [u8],
    plan: ScenePlan,
    number: u32,
    transform: Placement,
) -> Result<ScenePlan, Halted>
    ensures { LeavesFlow result out.exit (push_node (given_of given.now) number transform) plan out.entry }
{
    let Some(at) = look_up::look_up(given.sheet, given.finder, given.fixed.counts, 3, number) else {
        return Ok(plan);
    };
    let node = records::node_at(given.sheet, at);
    if is_hidden(given.hidden, node.layer, node.node_type) {
        return Ok(plan);
    }
    push_points(given, out, plan, at, transform)
}
