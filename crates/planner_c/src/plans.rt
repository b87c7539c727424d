// `planner::plan` and `planner::plan_with_finder`, by numbers and floats.
ghost use Rattle.std.specs.Prelude.{◌≡◌};
ghost use Rattle.plan_rules.specs.OnTape.{plan_outcome};
ghost use Rattle.planner.specs.WithFinder.{finder_outcome};
ghost use Rattle.planner_c.specs.Call.{returned, options_from};

use crate::numbers::{options_from, tell};

#[unsafe(no_mangle)]
pub extern "C" fn scene_plan(
    sheet: &[u8],
    root: u32,
    depth: u32,
    min_x: f64,
    min_y: f64,
    max_x: f64,
    max_y: f64,
    zoom: f64,
    hidden: &[u32],
    out: &mut [u8],
    counts: &mut [u64],
    marks: &mut [u8],
    offset: &mut usize,
    length: &mut usize,
) -> u32
    ensures { returned result offset.exit length.exit out.exit counts.exit marks.exit
        ≡ plan_outcome sheet.entry (options_from root depth min_x min_y max_x max_y zoom) hidden.entry out.entry counts.entry marks.entry }
{
    let query = options_from(root, depth, min_x, min_y, max_x, max_y, zoom);
    let answer = planner::plan(sheet, query, hidden, out, counts, marks);
    tell(answer, offset, length)
}

#[unsafe(no_mangle)]
pub extern "C" fn scene_plan_with_finder(
    sheet: &[u8],
    finder: &[u32],
    root: u32,
    depth: u32,
    min_x: f64,
    min_y: f64,
    max_x: f64,
    max_y: f64,
    zoom: f64,
    hidden: &[u32],
    out: &mut [u8],
    counts: &mut [u64],
    marks: &mut [u8],
    offset: &mut usize,
    length: &mut usize,
) -> u32
    ensures { returned result offset.exit length.exit out.exit counts.exit marks.exit
        ≡ finder_outcome sheet.entry finder.entry (options_from root depth min_x min_y max_x max_y zoom) hidden.entry out.entry counts.entry marks.entry }
{
    let query = options_from(root, depth, min_x, min_y, max_x, max_y, zoom);
    let answer = planner::plan_with_finder(sheet, finder, query, hidden, out, counts, marks);
    tell(answer, offset, length)
}
