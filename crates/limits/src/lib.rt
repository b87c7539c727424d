// The limits of a plan, each in this one place, the tests against them, and the sum that stops at the largest total.

#![tactic(auto)]

ghost use Rattle.std.specs.Prelude.{◌≡◌, List, ℕ};
ghost use Rattle.plan_rules.specs.Event.{◌⊞◌};
ghost use Rattle.plan_rules.specs.World.{detail_cells_full, detail_budget_exhausted};
ghost use Rattle.plan_rules.specs.OnTape.{fixed_query};

use plan_rules::{Fixed, ScenePlan};

pub const MAX_SCENE_OBJECTS: u64 = 20_000;

pub const MAX_DEPTH: u32 = 48;

const MAX_DETAIL_CELLS: u64 = 20_000;

const MAX_TEXT_INSTANCES: u64 = 10_000;

pub const MAX_LOAD_PROXIES: u64 = 100_000;

// Totals stop at 2^64 - 1.
#[tactic(auto, using(crate::proofs::Totals::saturated))]
pub fn saturating_add(a: u64, b: u64) -> u64
    ensures { result ≡ a ⊞ b }
{
    a.saturating_add(b)
}

// `self.plan.stats.detail_cells >= MAX_DETAIL_CELLS`
#[tactic(auto, unfolding(plan_rules::specs::World::detail_cells_full))]
pub fn detail_cells_full(plan: ScenePlan) -> bool
    ensures { result ≡ detail_cells_full plan }
{
    plan.detail_cells >= MAX_DETAIL_CELLS
}

// Whether the plan has met a limit on objects, texts or proxies.
#[tactic(auto, unfolding(plan_rules::specs::World::detail_budget_exhausted))]
pub fn detail_budget_exhausted(fixed: Fixed, plan: ScenePlan) -> bool
    ensures { (hidden : List ℕ) → result ≡ detail_budget_exhausted (fixed_query fixed hidden) plan }
{
    plan.detail_objects >= fixed.object_limit
        || plan.texts >= MAX_TEXT_INSTANCES
        || plan.load_proxies >= MAX_LOAD_PROXIES
}
