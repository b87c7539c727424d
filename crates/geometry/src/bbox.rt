// Boxes in the world: drawable.rs's `WorldBBox`, a box that may be absent, and `transform_bbox` and `point_in_bbox` of bevy_scene.rs.
ghost use Rattle.std.specs.Prelude.{◌≡◌};
ghost use Rattle.geometry.specs.Bbox.{bbox, boxed, bbox_of, bounds_of, overlaps, merge, least, greatest, include, transform_bbox, point_in_bbox, source_is_degenerate, transform_bounds, is_outside};

use crate::placement::{DVec2, Placement};

#[derive(Clone, Copy)]
pub struct WorldBBox {
    pub min_x: f64,
    pub min_y: f64,
    pub max_x: f64,
    pub max_y: f64,
}

// A box is either absent or four floats: min x, min y, max x, max y.
// Kept: document 01 gives it as an enum with these two cases; `bbox` and `from` are its ways to an Option and back.
#[derive(Clone, Copy)]
pub enum Bounds {
    Absent,
    Box(f64, f64, f64, f64),
}

impl Bounds {
    // The box, if there is one: `Bounds::from` of it gives these bounds again.
    #[tactic(auto, unfolding(crate::specs::Bbox::boxed))]
    pub fn bbox(self) -> Option<WorldBBox>
        ensures value { result ≡ bbox_of self }
        ensures back { bounds_of result ≡ self }
    {
        let Bounds::Box(min_x, min_y, max_x, max_y) = self else {
            return None;
        };
        Some(WorldBBox::new(min_x, min_y, max_x, max_y))
    }
}

impl From<WorldBBox> for Bounds {
    ghost from_gives = { λ bbox bounds. bounds ≡ boxed bbox };

    #[tactic(auto, unfolding(crate::specs::Bbox::boxed))]
    fn from(bbox: WorldBBox) -> Bounds {
        Bounds::Box(bbox.min_x, bbox.min_y, bbox.max_x, bbox.max_y)
    }
}

impl From<Option<WorldBBox>> for Bounds {
    ghost from_gives = { λ bbox bounds. bounds ≡ bounds_of bbox };

    fn from(bbox: Option<WorldBBox>) -> Bounds {
        match bbox {
            Some(bbox) => Bounds::from(bbox),
            None => Bounds::Absent,
        }
    }
}

impl WorldBBox {
    pub fn new(min_x: f64, min_y: f64, max_x: f64, max_y: f64) -> Self
        ensures { result ≡ bbox min_x min_y max_x max_y }
    {
        Self {
            min_x,
            min_y,
            max_x,
            max_y,
        }
    }

    // Edges belong to boxes, and a NaN overlaps nothing.
    #[tactic(auto, unfolding(crate::specs::Bbox::overlaps))]
    pub fn overlaps(self, other: WorldBBox) -> bool
        ensures { result ≡ overlaps self other }
    {
        self.max_x >= other.min_x
            && self.min_x <= other.max_x
            && self.max_y >= other.min_y
            && self.min_y <= other.max_y
    }

    // Passes over a NaN; of equal values the first, sign of zero included.
    #[tactic(auto, unfolding(crate::specs::Bbox::merge))]
    pub fn merge(self, other: WorldBBox) -> WorldBBox
        ensures { result ≡ merge self other }
    {
        WorldBBox {
            min_x: floats::order::min(self.min_x, other.min_x),
            min_y: floats::order::min(self.min_y, other.min_y),
            max_x: floats::order::max(self.max_x, other.max_x),
            max_y: floats::order::max(self.max_y, other.max_y),
        }
    }
}

// The pairwise least and greatest of `transform_bbox`: of two of which one is a NaN the second.
// Kept: the two differ in one sign; a function over the test would be longer than both.
#[tactic(auto, unfolding(crate::specs::Bbox::least))]
fn least(a: f64, b: f64) -> f64
    ensures { result ≡ least a b }
{
    if a < b { a } else { b }
}

#[tactic(auto, unfolding(crate::specs::Bbox::greatest))]
fn greatest(a: f64, b: f64) -> f64
    ensures { result ≡ greatest a b }
{
    if a > b { a } else { b }
}

// One turn of the loop of `transform_bbox`.
#[tactic(auto, unfolding(crate::specs::Bbox::include))]
fn include(bbox: WorldBBox, corner: DVec2) -> WorldBBox
    ensures { result ≡ include bbox corner }
{
    WorldBBox {
        min_x: least(bbox.min_x, corner.x),
        min_y: least(bbox.min_y, corner.y),
        max_x: greatest(bbox.max_x, corner.x),
        max_y: greatest(bbox.max_y, corner.y),
    }
}

// The least box around the four corners of `bbox` as they are placed: the Rust's loop over them, turn by turn.
pub fn transform_bbox(transform: Placement, bbox: WorldBBox) -> WorldBBox
    ensures { result ≡ transform_bbox transform bbox }
{
    let corners = [
        DVec2::new(bbox.min_x, bbox.min_y),
        DVec2::new(bbox.max_x, bbox.min_y),
        DVec2::new(bbox.max_x, bbox.max_y),
        DVec2::new(bbox.min_x, bbox.max_y),
    ];
    let infinity = 1.0 / 0.0;
    let nothing = WorldBBox::new(infinity, infinity, -infinity, -infinity);
    corners.iter().fold(nothing, |placed, corner| {
        include(placed, transform.transform_point2(*corner))
    })
}

#[tactic(auto, unfolding(crate::specs::Bbox::point_in_bbox))]
pub fn point_in_bbox(point: DVec2, bbox: WorldBBox) -> bool
    ensures { result ≡ point_in_bbox point bbox }
{
    point.x >= bbox.min_x && point.x <= bbox.max_x && point.y >= bbox.min_y && point.y <= bbox.max_y
}

// `source_is_degenerate` of `visit_reference`: the source's box has no width or no height.
#[tactic(auto, unfolding(crate::specs::Bbox::source_is_degenerate))]
pub fn source_is_degenerate(bbox: WorldBBox) -> bool
    ensures { result ≡ source_is_degenerate bbox }
{
    bbox.min_x == bbox.max_x || bbox.min_y == bbox.max_y
}

// `cell.bbox.map(|bbox| transform_bbox(transform, bbox))`
pub fn transform_bounds(transform: Placement, bounds: Bounds) -> Bounds
    ensures { result ≡ transform_bounds transform bounds }
{
    Bounds::from(bounds.bbox().map(|bbox| transform_bbox(transform, bbox)))
}

// `world_bbox.is_some_and(|bbox| !bbox.overlaps(self.options.visible))`
pub fn is_outside(bounds: Bounds, view: WorldBBox) -> bool
    ensures { result ≡ is_outside bounds view }
{
    bounds.bbox().is_some_and(|bbox| !bbox.overlaps(view))
}
