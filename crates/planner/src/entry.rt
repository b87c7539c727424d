// The entry points: `PreparedLibrary::plan` of bevy_scene.rs behind document 01's questions, and the same with a finder behind document 02's as well.
// Any bytes, any query, any finder and any lent memory get an answer.
ghost use Rattle.std.specs.Prelude.{◌≡◌};
ghost use Rattle.look_up.specs.Look.{sheet_with};
ghost use Rattle.plan_rules.specs.Outcome.{sound_outcome};
ghost use Rattle.plan_rules.specs.OnTape.{answers, asked, plan_outcome};
ghost use Rattle.planner.specs.WithFinder.{turned_away, finder_outcome};

use crate::clean::visit_clean;
use crate::finish::finish;
use check_sheet::Counts;
use limits::MAX_SCENE_OBJECTS;
use plan_rules::{Fixed, Given, PlanError, SceneOptions};

// Questions 8 to 12, and the plan of a sheet that passed the questions before, as its look-ups show it.
fn plan_sound(
    sheet: &[u8],
    finder: &[u32],
    kinds: Counts,
    query: SceneOptions,
    hidden: &[u32],
    out: &mut [u8],
    counts: &mut [u64],
    marks: &mut [u8],
) -> Result<usize, PlanError>
    ensures { answers result out.exit counts.exit marks.exit
        ≡ sound_outcome (sheet_with sheet.now finder.now kinds) kinds.cells (asked query hidden.now) out.old counts.old marks.old }
{
    let cells = kinds.cells;
    let depth = query.depth;
    check_query::check_query(query, cells, counts.len(), marks.len())?;
    let given = Given {
        sheet,
        finder,
        hidden,
        fixed: Fixed {
            options: query,
            object_limit: MAX_SCENE_OBJECTS,
            counts: kinds,
        },
    };
    let counts_used = scratch::counts_named(cells, depth);
    let marks_used = scratch::marks_named(cells, depth);
    let plan = visit_clean(
        &given,
        out,
        &mut counts[..counts_used],
        &mut marks[..marks_used],
    );
    finish(out, plan)
}

// The plan of a sheet: its tape in the lent output, and how long it is, or the first no.
pub fn plan(
    sheet: &[u8],
    query: SceneOptions,
    hidden: &[u32],
    out: &mut [u8],
    counts: &mut [u64],
    marks: &mut [u8],
) -> Result<usize, PlanError>
    ensures { answers result out.exit counts.exit marks.exit
        ≡ plan_outcome sheet.entry query hidden.entry out.entry counts.entry marks.entry }
{
    let kinds = check_sheet::check_sheet(sheet)?;
    plan_sound(
        sheet,
        &hidden[..0], // no finder
        kinds,
        query,
        hidden,
        out,
        counts,
        marks,
    )
}

// Number 13: all of the output and the scratch is zeroed.
fn turn_away(out: &mut [u8], counts: &mut [u64], marks: &mut [u8]) -> Result<usize, PlanError>
    ensures { answers result out.exit counts.exit marks.exit ≡ turned_away out.old counts.old marks.old }
{
    out.fill(0);
    counts.fill(0);
    marks.fill(0);
    Err(PlanError::WrongFinder)
}

// The same with a finder beside the sheet, which is compared with the sheet once: then no look-up walks the records.
pub fn plan_with_finder(
    sheet: &[u8],
    finder: &[u32],
    query: SceneOptions,
    hidden: &[u32],
    out: &mut [u8],
    counts: &mut [u64],
    marks: &mut [u8],
) -> Result<usize, PlanError>
    ensures { answers result out.exit counts.exit marks.exit
        ≡ finder_outcome sheet.entry finder.entry query hidden.entry out.entry counts.entry marks.entry }
{
    let kinds = check_sheet::check_sheet(sheet)?;
    if !finder::belongs(sheet, finder, kinds) {
        return turn_away(out, counts, marks);
    }
    plan_sound(sheet, finder, kinds, query, hidden, out, counts, marks)
}
