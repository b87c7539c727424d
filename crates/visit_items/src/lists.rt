// The list of numbers that a plan goes through: a cell's batches, texts or nodes, or the one number that a reference has for its source.
// The loop goes through `count` numbers: `first`, whatever the budget, then those after the first in a list of the cell's record at `at`, while
// there is room. A limit that stops it is an `Err`.
// A push is called in one place, this loop, so that it is compiled into it: the totals then stay in registers from number to number.
ghost use Rattle.std.specs.Prelude.{◌≡◌};
ghost use Rattle.plan_rules.specs.OnTape.{given_of, LeavesFlow};
ghost use Rattle.visit_items.specs.Lists.{push_numbers};

use crate::Items;
use geometry::placement::Placement;
use limits::detail_budget_exhausted;
use plan_rules::{Given, Halted, ScenePlan};

// The same plan, its totals copied one by one: the compiler then keeps each of them apart. A plan that is only copied whole goes through memory at each `?`.
fn one_by_one(plan: ScenePlan) -> ScenePlan
    ensures { result ≡ plan }
{
    ScenePlan {
        tape_end: plan.tape_end,
        texts: plan.texts,
        load_proxies: plan.load_proxies,
        detail_cells: plan.detail_cells,
        detail_objects: plan.detail_objects,
        culled_references: plan.culled_references,
        skipped_subpixel_references: plan.skipped_subpixel_references,
        culled_geometry_batches: plan.culled_geometry_batches,
        skipped_subpixel_geometry_batches: plan.skipped_subpixel_geometry_batches,
        dropped_load_proxies: plan.dropped_load_proxies,
    }
}

pub fn push_numbers<I: Items>(
    given: &Given<'_>,
    out: &mut [u8],
    mut plan: ScenePlan,
    first: u32,
    at: usize,
    count: u32,
    transform: Placement,
) -> Result<ScenePlan, Halted>
    ensures { LeavesFlow result out.exit (push_numbers (given_of given.now) (I.push given.now transform) (I.numbers given.now.sheet.now at) first count) plan out.entry }
{
    let sheet = given.sheet; // read once: behind each write to `out` the compiler would read it again
    for i in 0..count {
        let number = if i == 0 {
            first
        } else if detail_budget_exhausted(given.fixed, plan) {
            return Err(Halted { plan });
        } else {
            I::number(sheet, at, i)
        };
        plan = one_by_one(I::push(given, out, plan, number, transform)?);
    }
    Ok(plan)
}
