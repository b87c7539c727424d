// The visit of the root: one proxy at depth 0, else the visit of its cell where it stands.
ghost use Rattle.std.specs.Prelude.{◌≡◌};
ghost use Rattle.scratch.specs.Lent.{StaysLent};
ghost use Rattle.plan_rules.specs.OnTape.{given_of, Leaves, lent, visit_root};

use geometry::placement::Placement;
use plan_rules::{Given, Reason, ScenePlan};
use scratch::Scratch;

// "Depth 0 gives just one proxy if the root has a box that overlaps the view."
fn load_root(given: &Given<'_>, out: &mut [u8], plan: ScenePlan) -> ScenePlan
    ensures { Leaves result out.exit (visit_root (given_of given.now) 0) plan out.entry }
{
    let query = given.fixed.options;
    let counts = given.fixed.counts;
    let Some(at) = look_up::look_up(given.sheet, given.finder, counts, 5, query.root) else {
        return plan;
    };
    let record = records::cell_at(given.sheet, at);
    let Some(bbox) = record.bbox.bbox() else {
        return plan;
    };
    if !bbox.overlaps(query.view) {
        return plan;
    }
    events::add_load(out, plan, Reason::DepthZero, query.root, bbox)
}

pub fn visit_root(
    given: &Given<'_>,
    out: &mut [u8],
    scratch: &mut Scratch<'_>,
    plan: ScenePlan,
) -> ScenePlan
    ensures visits { lent result out.exit scratch.new.counts scratch.new.marks
        ≡ visit_root (given_of given.now) given.now.fixed.options.depth (lent plan out.entry scratch.old.counts scratch.old.marks) }
    ensures others { StaysLent scratch.old scratch.new }
{
    let query = given.fixed.options;
    if query.depth == 0 {
        return load_root(given, out, plan);
    }
    visits::visit_cell(
        given,
        out,
        scratch,
        plan,
        query.root,
        Placement::IDENTITY,
        query.depth,
    )
}
