// One function for each event that a plan counts: what it adds to the totals, and the record it puts on the tape if there is one.
// The record is written if it fits; the tape's end grows in any case, which is how refusal 12 is seen.

#![tactic(auto, unfolding(crate::proofs::Opened::opened))]

ghost use Rattle.std.specs.Prelude.{◌≡◌, Bool, List, ℕ};
ghost use Rattle.geometry.specs.declared.bbox.WorldBBox.{WorldBBox};
ghost use Rattle.plan_rules.specs.declared.Reason.{Reason};
ghost use Rattle.plan_rules.specs.Event.{batch, text, point, proxy, dropped_proxy, skipped_member, skipped_batch, culled_reference, culled_batch, detail_cell, totals};
ghost use Rattle.plan_rules.specs.World.{world};
ghost use Rattle.plan_rules.specs.OnTape.{Leaves, say};

use geometry::bbox::WorldBBox;
use geometry::placement::{DVec2, Placement};
use limits::saturating_add;
use plan_rules::{Reason, ScenePlan};
use tape::{Batch, Point, Proxy, Text};

// ---- listed

pub fn list_batch(out: &mut [u8], plan: ScenePlan, number: u32, placement: Placement) -> ScenePlan
    ensures { Leaves result out.exit (say (batch number placement)) plan out.entry }
{
    let listed = Batch { number, placement };
    ScenePlan {
        tape_end: tape::write(out, plan.tape_end, &listed),
        detail_objects: saturating_add(plan.detail_objects, 1),
        ..plan
    }
}

pub fn list_text(out: &mut [u8], plan: ScenePlan, number: u32, position: DVec2) -> ScenePlan
    ensures { Leaves result out.exit (say (text number position)) plan out.entry }
{
    let listed = Text { number, position };
    ScenePlan {
        tape_end: tape::write(out, plan.tape_end, &listed),
        texts: saturating_add(plan.texts, 1),
        detail_objects: saturating_add(plan.detail_objects, 1),
        ..plan
    }
}

pub fn list_point(
    out: &mut [u8],
    plan: ScenePlan,
    layer: u32,
    node_type: u32,
    position: DVec2,
) -> ScenePlan
    ensures { Leaves result out.exit (say (point layer node_type position)) plan out.entry }
{
    let listed = Point {
        layer,
        node_type,
        position,
    };
    ScenePlan {
        tape_end: tape::write(out, plan.tape_end, &listed),
        detail_objects: saturating_add(plan.detail_objects, 1),
        ..plan
    }
}

// The tape does not say why.
pub fn list_proxy(
    out: &mut [u8],
    plan: ScenePlan,
    why: Reason,
    label: u32,
    bbox: WorldBBox,
) -> ScenePlan
    ensures { Leaves result out.exit (say (proxy why label bbox)) plan out.entry }
{
    let listed = Proxy { label, bbox };
    ScenePlan {
        tape_end: tape::write(out, plan.tape_end, &listed),
        load_proxies: saturating_add(plan.load_proxies, 1),
        ..plan
    }
}

pub fn list_totals(out: &mut [u8], plan: ScenePlan) -> ScenePlan
    ensures { Leaves result out.exit (say (totals plan)) plan out.entry }
{
    ScenePlan {
        tape_end: tape::write(out, plan.tape_end, &plan),
        ..plan
    }
}

// ---- counted only
// Kept: a function for each of the six totals: each is one expression, and a trait would need a type and an impl for each.

pub fn count_culled_reference(plan: ScenePlan) -> ScenePlan
    ensures { (o k m : List ℕ) → world result o k m ≡ say culled_reference (world plan o k m) }
{
    ScenePlan {
        culled_references: saturating_add(plan.culled_references, 1),
        ..plan
    }
}

pub fn count_skipped_member(plan: ScenePlan) -> ScenePlan
    ensures { (degenerate : Bool) (box : WorldBBox) (o k m : List ℕ) → world result o k m ≡ say (skipped_member degenerate box) (world plan o k m) }
{
    ScenePlan {
        skipped_subpixel_references: saturating_add(plan.skipped_subpixel_references, 1),
        ..plan
    }
}

pub fn count_culled_batch(plan: ScenePlan) -> ScenePlan
    ensures { (o k m : List ℕ) → world result o k m ≡ say culled_batch (world plan o k m) }
{
    ScenePlan {
        culled_geometry_batches: saturating_add(plan.culled_geometry_batches, 1),
        ..plan
    }
}

pub fn count_skipped_batch(plan: ScenePlan) -> ScenePlan
    ensures { (box : WorldBBox) (o k m : List ℕ) → world result o k m ≡ say (skipped_batch box) (world plan o k m) }
{
    ScenePlan {
        skipped_subpixel_geometry_batches: saturating_add(
            plan.skipped_subpixel_geometry_batches,
            1,
        ),
        ..plan
    }
}

// The plan does not say why, nor which.
pub fn count_dropped_proxy(plan: ScenePlan) -> ScenePlan
    ensures { (why : Reason) (label : ℕ) (box : WorldBBox) (o k m : List ℕ) → world result o k m ≡ say (dropped_proxy why label box) (world plan o k m) }
{
    ScenePlan {
        dropped_load_proxies: saturating_add(plan.dropped_load_proxies, 1),
        ..plan
    }
}

pub fn count_detail_cell(plan: ScenePlan) -> ScenePlan
    ensures { (o k m : List ℕ) → world result o k m ≡ say detail_cell (world plan o k m) }
{
    ScenePlan {
        detail_cells: saturating_add(plan.detail_cells, 1),
        ..plan
    }
}
