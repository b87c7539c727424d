// A query from numbers and floats, and an answer in numbers.
ghost use Rattle.std.specs.Prelude.{◌≡◌};
ghost use Rattle.plan_rules.specs.Outcome.{number_of, offset_of, length_of};
ghost use Rattle.planner_c.specs.Call.{options_from};

use geometry::bbox::WorldBBox;
use plan_rules::{PlanError, SceneOptions};

pub fn options_from(
    root: u32,
    depth: u32,
    min_x: f64,
    min_y: f64,
    max_x: f64,
    max_y: f64,
    zoom: f64,
) -> SceneOptions
    ensures { result ≡ options_from root depth min_x min_y max_x max_y zoom }
{
    let view = WorldBBox {
        min_x,
        min_y,
        max_x,
        max_y,
    };
    SceneOptions {
        root,
        depth,
        view,
        zoom,
    }
}

// The number of the first no, with its offset, or 0; the tape's length with 0 and with 12.
pub fn tell(answer: Result<usize, PlanError>, offset: &mut usize, length: &mut usize) -> u32
    ensures { (result ≡ number_of answer) × (offset.new ≡ offset_of answer) × (length.new ≡ length_of answer) }
{
    match answer {
        Ok(tape) => {
            *offset = 0;
            *length = tape;
            0
        }
        Err(error) => {
            *offset = error.offset();
            *length = error.length();
            error.number()
        }
    }
}
