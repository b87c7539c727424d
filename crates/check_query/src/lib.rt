// Questions 8 to 11 of document 01, asked of a query and of the lengths of the lent scratch. Any query and any lengths get an answer.

#![tactic(auto)]

ghost use Rattle.std.specs.Prelude.{◌≡◌};
ghost use Rattle.plan_rules.specs.Questions.{view_ok, zoom_ok, has_scratch, refusal_of, query_refusal};

use geometry::bbox::WorldBBox;
use plan_rules::{QueryError, SceneOptions};

// Question 8: "Is the view finite, min at most max?"
#[tactic(auto, unfolding(plan_rules::specs::Questions::view_ok))]
fn view_ok(view: WorldBBox) -> bool
    ensures { result ≡ view_ok view }
{
    view.min_x.is_finite()
        && view.min_y.is_finite()
        && view.max_x.is_finite()
        && view.max_y.is_finite()
        && view.min_x <= view.max_x
        && view.min_y <= view.max_y
}

// Question 9: "Is zoom finite and above 0?"
#[tactic(auto, unfolding(plan_rules::specs::Questions::zoom_ok))]
fn zoom_ok(zoom: f64) -> bool
    ensures { result ≡ zoom_ok zoom }
{
    zoom.is_finite() && 0.0 < zoom
}

// Question 11: "Has the counts scratch cells × depth 64-bit places, and the marks scratch cells × (depth + 2) bytes?"
#[tactic(auto, unfolding(plan_rules::specs::Questions::has_scratch))]
fn has_scratch(cells: u32, depth: u32, counts_len: usize, marks_len: usize) -> bool
    ensures { result ≡ has_scratch cells depth counts_len marks_len }
{
    scratch::counts_named(cells, depth) <= counts_len
        && scratch::marks_named(cells, depth) <= marks_len
}

// The first no, if there is one, for a sheet of so many cells.
#[tactic(auto, unfolding(plan_rules::specs::Questions::query_refusal_up_to, plan_rules::specs::Questions::depth_ok))]
pub fn check_query(
    options: SceneOptions,
    cells: u32,
    counts_len: usize,
    marks_len: usize,
) -> Result<(), QueryError>
    ensures { refusal_of result ≡ query_refusal options.view options.zoom options.depth cells counts_len marks_len }
{
    if !view_ok(options.view) {
        return Err(QueryError::View);
    }
    if !zoom_ok(options.zoom) {
        return Err(QueryError::Zoom);
    }
    if limits::MAX_DEPTH < options.depth {
        return Err(QueryError::Depth);
    }
    if !has_scratch(cells, options.depth, counts_len, marks_len) {
        return Err(QueryError::Scratch);
    }
    Ok(())
}
