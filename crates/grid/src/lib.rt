// The grid of a reference, step by step as the Rust has it: grid.rs's fields, and `grid_count`, `grid_member_transform` and
// `reference_bbox` of bevy_scene.rs.
// Every function is total, and equals a definition of specs/ over the values of IEEE 754, NaN and infinities included.

#![tactic(auto)]

ghost use Rattle.std.specs.Prelude.{◌≡◌};
ghost use Rattle.grid.specs.Grid.{grid_count, offset, rotated, y_axis, grid_member_transform, member_bbox, corners_to, reference_bbox};

use geometry::bbox::{Bounds, WorldBBox};
use geometry::placement::{DVec2, Placement};

// `cos` and `sin` stand in for the sine and cosine of the Rust's angle.
#[derive(Clone, Copy)]
pub struct Grid {
    pub columns: u32,
    pub rows: u32,
    pub x_reflection: bool,
    pub origin: DVec2,
    pub spacing_x: DVec2,
    pub spacing_y: DVec2,
    pub magnification: f64,
    pub cos: f64,
    pub sin: f64,
}

#[tactic(auto, unfolding(crate::specs::Grid::grid_count))]
pub fn grid_count(grid: Grid) -> u64
    ensures { result ≡ grid_count grid }
{
    (grid.columns as u64) * (grid.rows as u64)
}

// How far a member stands from the origin, before the rotation.
#[tactic(auto, unfolding(crate::specs::Grid::offset))]
fn offset(grid: Grid, column: u32, row: u32) -> DVec2
    ensures { result ≡ offset grid column row }
{
    let spacing_x = grid.spacing_x;
    let spacing_y = grid.spacing_y;
    let columns = column as f64;
    let rows = row as f64;
    DVec2::new(
        spacing_x.x * columns + spacing_y.x * rows,
        spacing_x.y * columns + spacing_y.y * rows,
    )
}

// Two fused steps, each rounded once.
#[tactic(auto, unfolding(crate::specs::Grid::rotated))]
fn rotated(offset: DVec2, cos: f64, sin: f64) -> DVec2
    ensures { result ≡ rotated offset cos sin }
{
    DVec2::new(
        fused::mul_add(offset.x, cos, -(offset.y * sin)),
        fused::mul_add(offset.x, sin, offset.y * cos),
    )
}

// The y axis before it is magnified.
#[tactic(auto, unfolding(crate::specs::Grid::y_axis))]
fn y_axis(x_reflection: bool, cos: f64, sin: f64) -> DVec2
    ensures { result ≡ y_axis x_reflection cos sin }
{
    if x_reflection {
        DVec2::new(sin, -cos)
    } else {
        DVec2::new(-sin, cos)
    }
}

#[tactic(auto, unfolding(crate::specs::Grid::grid_member_transform))]
pub fn grid_member_transform(grid: Grid, column: u32, row: u32) -> Placement
    ensures { result ≡ grid_member_transform grid column row }
{
    let cos = grid.cos;
    let sin = grid.sin;
    let magnification = grid.magnification;
    let origin = grid.origin;
    let rotated_offset = rotated(offset(grid, column, row), cos, sin);
    let y_axis = y_axis(grid.x_reflection, cos, sin);
    Placement {
        xx: cos * magnification,
        xy: sin * magnification,
        yx: y_axis.x * magnification,
        yy: y_axis.y * magnification,
        tx: origin.x + rotated_offset.x,
        ty: origin.y + rotated_offset.y,
    }
}

#[tactic(auto, unfolding(crate::specs::Grid::member_bbox))]
fn member_bbox(grid: Grid, column: u32, row: u32, source_bbox: WorldBBox) -> WorldBBox
    ensures { result ≡ member_bbox grid column row source_bbox }
{
    geometry::bbox::transform_bbox(grid_member_transform(grid, column, row), source_bbox)
}

// The boxes of the four corner members, merged: column outer, row inner. Of one member all four are the same, and so is their merge.
fn corners_bbox(grid: Grid, column: u32, row: u32, source_bbox: WorldBBox) -> WorldBBox
    ensures { result ≡ corners_to grid column row source_bbox }
{
    let first = member_bbox(grid, 0, 0, source_bbox);
    if column == 0 && row == 0 {
        return first;
    }
    first
        .merge(member_bbox(grid, 0, row, source_bbox))
        .merge(member_bbox(grid, column, 0, source_bbox))
        .merge(member_bbox(grid, column, row, source_bbox))
}

// The box of all members. Without columns or rows there is none.
#[tactic(auto, unfolding(crate::specs::Grid::reference_bbox, crate::specs::Grid::corners_bbox))]
pub fn reference_bbox(grid: Grid, source_bbox: WorldBBox) -> Bounds
    ensures { result ≡ reference_bbox grid source_bbox }
{
    if grid.columns == 0 || grid.rows == 0 {
        return Bounds::Absent;
    }
    Bounds::from(corners_bbox(grid, grid.columns - 1, grid.rows - 1, source_bbox))
}
