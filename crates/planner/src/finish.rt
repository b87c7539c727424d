// The end of a plan: the totals behind the tape, and question 12.
ghost use Rattle.std.specs.Prelude.{◌≡◌, List, ℕ};
ghost use Rattle.plan_rules.specs.Event.{totals};
ghost use Rattle.plan_rules.specs.World.{world};
ghost use Rattle.plan_rules.specs.OnTape.{say};
ghost use Rattle.plan_rules.specs.Outcome.{outcome};
ghost use Rattle.planner.specs.Answered.{answered};

use plan_rules::{PlanError, ScenePlan};

// Question 12, "Does the whole tape fit the lent output?" Records that do not fit were not written, but the tape's end counts them.
pub fn finish(out: &mut [u8], plan: ScenePlan) -> Result<usize, PlanError>
    ensures { (k m : List ℕ) → outcome result out.new k m ≡ answered (say (totals plan) (world plan out.old k m)) }
{
    let whole = events::list_totals(out, plan);
    if whole.tape_end <= out.len() as u64 {
        return Ok(whole.tape_end as usize);
    }
    out.fill(0); // "Number 12 zeroes the whole output."
    Err(PlanError::NoRoom(whole.tape_end as usize))
}
