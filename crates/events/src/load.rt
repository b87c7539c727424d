// Proxies: `add_load`. A full list drops further proxies; the totals say how many.

#![tactic(auto, unfolding(plan_rules::specs::Push::add_load))]

ghost use Rattle.std.specs.Prelude.{◌≡◌};
ghost use Rattle.plan_rules.specs.Visit.{box_reason};
ghost use Rattle.plan_rules.specs.OnTape.{Leaves, add_load, add_load_if_boxed};

use crate::counted::{count_dropped_proxy, list_proxy};
use geometry::bbox::{Bounds, WorldBBox};
use limits::MAX_LOAD_PROXIES;
use plan_rules::{Reason, ScenePlan};
use screen::CollapseTest;

pub fn add_load(
    out: &mut [u8],
    plan: ScenePlan,
    why: Reason,
    label: u32,
    bbox: WorldBBox,
) -> ScenePlan
    ensures { Leaves result out.exit (add_load why label bbox) plan out.entry }
{
    if plan.load_proxies < MAX_LOAD_PROXIES {
        return list_proxy(out, plan, why, label, bbox);
    }
    count_dropped_proxy(plan)
}

// `if let Some(bbox) = world_bbox { self.add_load(bbox, ..) }`
pub fn add_load_if_boxed(
    out: &mut [u8],
    plan: ScenePlan,
    why: Reason,
    label: u32,
    bounds: Bounds,
) -> ScenePlan
    ensures { Leaves result out.exit (add_load_if_boxed why label bounds) plan out.entry }
{
    let Some(bbox) = bounds.bbox() else {
        return plan;
    };
    add_load(out, plan, why, label, bbox)
}

// The reason that the first test met gives a reference's or a member's box. One that passes all the tests gets no box.
pub fn collapse_reason(test: Option<CollapseTest>) -> Reason
    ensures { result ≡ box_reason test }
{
    match test {
        Some(CollapseTest::Depth) => Reason::DepthAtMostOne,
        Some(CollapseTest::Side) => Reason::SmallSide,
        Some(CollapseTest::Grid) => Reason::LargeGrid,
        Some(CollapseTest::Density) | None => Reason::DenseReference,
    }
}
