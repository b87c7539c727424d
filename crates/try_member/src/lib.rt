// One member of a reference: up to the visit of its source, and where a limit stopped that visit.

#![tactic(auto)]

ghost use Rattle.std.specs.Prelude.{◌<◌};
ghost use Rattle.grid.specs.Grid.{grid_count};
ghost use Rattle.plan_rules.specs.OnTape.{Leaves, load_member};
ghost use Rattle.try_member.specs.Left.{TriesMember};

use geometry::bbox::WorldBBox;
use geometry::placement::Placement;
use open_reference::OpenReference;
use plan_rules::{Fixed, Reason, ScenePlan};
use records::NO_LABEL;

// What is left of a member's turn: the visit of its source at the member's placement, of which the box is asked where a limit stops it;
// or nothing, and the visit of the reference goes on or is over.
#[derive(Clone, Copy)]
pub enum Tried {
    Opens {
        placement: Placement,
        bbox: WorldBBox,
    },
    Passed(ScenePlan),
    Halted(ScenePlan),
}

// Member i, which stands in column i / rows and row i % rows; `share` is one member's part of the draw units.
pub fn try_member(
    fixed: Fixed,
    out: &mut [u8],
    plan: ScenePlan,
    reference: &OpenReference<'_>,
    share: u64,
    i: u64,
    depth: u32,
) -> Tried
    requires { i < grid_count reference.now.record.now.grid }
    ensures { TriesMember fixed reference.now share i depth result out.exit plan out.entry }
{
    let grid = reference.record.grid;
    let rows = grid.rows as u64;
    let column = (i / rows) as u32;
    let row = (i % rows) as u32;
    let placement = reference.transform * grid::grid_member_transform(grid, column, row);
    let bbox = geometry::bbox::transform_bbox(placement, reference.source_bbox);
    let label = records::label(reference.record.source);
    if limits::detail_budget_exhausted(fixed, plan) {
        let boxed = events::add_load(out, plan, Reason::OtherLimit, label, reference.world_bbox);
        return Tried::Halted(boxed);
    }
    if !bbox.overlaps(fixed.options.view) {
        return Tried::Passed(events::count_culled_reference(plan));
    }
    let degenerate = geometry::bbox::source_is_degenerate(reference.source_bbox);
    let size = screen::reference_screen_size(bbox, fixed.options.zoom, degenerate);
    if screen::is_subpixel(size) {
        return Tried::Passed(events::count_skipped_member(plan));
    }
    if let Some(test) = screen::collapse_test(size, 1, share, depth, false) {
        let boxed = events::add_load(out, plan, events::collapse_reason(Some(test)), label, bbox);
        return Tried::Passed(boxed);
    }
    Tried::Opens { placement, bbox }
}

// The member's box, and then the whole reference's, which has no label.
pub fn load_member(
    out: &mut [u8],
    plan: ScenePlan,
    label: u32,
    bbox: WorldBBox,
    world_bbox: WorldBBox,
) -> ScenePlan
    ensures { Leaves result out.exit (load_member label bbox world_bbox) plan out.entry }
{
    let boxed = events::add_load(out, plan, Reason::OtherLimit, label, bbox);
    events::add_load(out, boxed, Reason::OtherLimit, NO_LABEL, world_bbox)
}
