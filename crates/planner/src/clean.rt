// The visits on scratch that is zeroed before and after: a tape does not depend on what the scratch held.
ghost use Rattle.std.specs.Prelude.{◌≡◌, length};
ghost use Rattle.plan_rules.specs.OnTape.{given_of, lent};
ghost use Rattle.planner.specs.Swept.{swept};

use crate::root::visit_root;
use plan_rules::{Given, ScenePlan};
use scratch::Scratch;

pub fn visit_clean(
    given: &Given<'_>,
    out: &mut [u8],
    counts: &mut [u64],
    marks: &mut [u8],
) -> ScenePlan
    ensures { lent result out.exit counts.exit marks.exit
        ≡ swept (given_of given.now) out.old (length counts.old) (length marks.old) }
{
    let mut scratch = Scratch { counts, marks };
    scratch.counts.fill(0);
    scratch.marks.fill(0);
    let plan = visit_root(given, out, &mut scratch, ScenePlan::default());
    // "It and an accepted plan leave the named scratch places zero."
    scratch.counts.fill(0);
    scratch.marks.fill(0);
    plan
}
