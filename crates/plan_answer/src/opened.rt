// A plan with a finder that is opened for it.
ghost use Rattle.std.specs.Prelude.{◌≡◌};
ghost use Rattle.open_sheet.specs.Opening.{opening_of};
ghost use Rattle.plan_rules.specs.OnTape.{answers, plan_outcome};

use plan_rules::{PlanError, SceneOptions};

// Opens the sheet in the lent list and plans with it: exactly the outcome of `planner::plan`. Where the list is short or the sheet is
// refused, `planner::plan` itself answers. A list of a place for each 26 bytes of the sheet is never short.
// Kept: the places one by one, as the C interface lends them to `planner::plan` and `plan_with_finder`.
pub fn plan_opened(
    sheet: &[u8],
    finder: &mut [u32],
    query: SceneOptions,
    hidden: &[u32],
    tape: &mut [u8],
    counts: &mut [u64],
    marks: &mut [u8],
) -> Result<usize, PlanError>
    ensures outcome { answers result tape.exit counts.exit marks.exit
        ≡ plan_outcome sheet.entry query hidden.entry tape.entry counts.entry marks.entry }
    ensures finder_left { finder.new ≡ (opening_of sheet.now finder.old).finder }
{
    match open_sheet::open_sheet(sheet, finder) {
        Ok(_) => planner::plan_with_finder(sheet, finder, query, hidden, tape, counts, marks),
        Err(_) => planner::plan(sheet, query, hidden, tape, counts, marks),
    }
}
