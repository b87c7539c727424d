// `visit_reference` up to its members: without a box, culled, boxed for a limit, or to be counted; and whether a box on the screen collapses.

#![tactic(auto)]

ghost use Rattle.std.specs.Prelude.{◌≡◌};
ghost use Rattle.open_reference.specs.Left.{OpensReference, Holds, reference_test};

use geometry::bbox::WorldBBox;
use geometry::placement::Placement;
use plan_rules::{Fixed, Reason, ScenePlan};
use records::PreparedReference;
use screen::CollapseTest;
use std::ops::ControlFlow;

// A reference that is visited: its record, where it is placed, its source's box, and its own placed box.
#[derive(Clone, Copy)]
pub struct OpenReference<'a> {
    pub record: &'a PreparedReference,
    pub transform: Placement,
    pub source_bbox: WorldBBox,
    pub world_bbox: WorldBBox,
}

// A reference that is there: its draw units are left to count, or nothing is left to do.
pub fn open_reference<'a>(
    fixed: Fixed,
    out: &mut [u8],
    plan: ScenePlan,
    record: &'a PreparedReference,
    transform: Placement,
) -> ControlFlow<ScenePlan, OpenReference<'a>>
    ensures opens { OpensReference fixed «record».now transform result out.exit plan out.entry }
    ensures holds { Holds «record».now transform result }
{
    let Some(source_bbox) = record.source_bbox.bbox() else {
        return ControlFlow::Break(plan);
    };
    let members_bounds = grid::reference_bbox(record.grid, source_bbox);
    let Some(local_bbox) = members_bounds.bbox() else {
        return ControlFlow::Break(plan);
    };
    let world_bbox = geometry::bbox::transform_bbox(transform, local_bbox);
    if !world_bbox.overlaps(fixed.options.view) {
        let culled = events::count_culled_reference(plan);
        return ControlFlow::Break(culled);
    }
    let label = records::label(record.source);
    if limits::detail_cells_full(plan) {
        let boxed = events::add_load(out, plan, Reason::CellLimit, label, world_bbox);
        return ControlFlow::Break(boxed);
    }
    if limits::detail_budget_exhausted(fixed, plan) {
        let boxed = events::add_load(out, plan, Reason::OtherLimit, label, world_bbox);
        return ControlFlow::Break(boxed);
    }
    ControlFlow::Continue(OpenReference {
        record,
        transform,
        source_bbox,
        world_bbox,
    })
}

impl OpenReference<'_> {
    // `should_collapse_reference` for a reference of so many members, by the size of its box on the screen: the first test met.
    pub fn reference_test(
        &self,
        fixed: Fixed,
        members: u64,
        units: u64,
        depth: u32,
    ) -> Option<CollapseTest>
        ensures { result ≡ reference_test fixed self.now members units depth }
    {
        let size = screen::reference_screen_size(
            self.world_bbox,
            fixed.options.zoom,
            geometry::bbox::source_is_degenerate(self.source_bbox),
        );
        screen::collapse_test(size, members, units, depth, false)
    }
}
