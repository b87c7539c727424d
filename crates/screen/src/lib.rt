// Sizes on the screen, in f32, and the tests that are made of them, step by step as the Rust has them: `screen_size` and
// `reference_screen_size`, the tests of `visit_reference` and `push_geometry` in bevy_scene.rs, and drawable.rs's `should_collapse_reference`.
// Every function is total, and equals a definition of specs/ over the values of IEEE 754, NaN and infinities included.

#![tactic(auto)]

ghost use Rattle.std.specs.Prelude.{◌≡◌};
ghost use Rattle.screen.specs.Screen.{wide_side, screen_size, reference_screen_size, is_subpixel, average_area_within, is_dense, is_dense_batch, collapse_test};

use geometry::bbox::WorldBBox;

const REF_LOAD_THRESHOLD_PX: f32 = 24.0;

const REF_DENSE_GRID_MIN_INSTANCES: u64 = 128;

const REF_LOAD_MIN_AVG_INSTANCE_AREA_PX: f32 = 16.0;

const REF_MAX_GRID_EXPANSION: u64 = 8_192;

const DENSE_BATCH_MIN_ELEMENTS: u32 = 128;

const MIN_AVERAGE_ELEMENT_AREA_PX: f32 = 16.0;

const MIN_FIXED_CONTENT_PX: f32 = 24.0;

#[derive(Clone, Copy)]
pub struct ScreenSize {
    pub width: f32,
    pub height: f32,
}

// One side before it is narrowed: the difference and the product in f64.
fn wide_side(min: f64, max: f64, zoom: f64) -> f64
    ensures { result ≡ wide_side min max zoom }
{
    (max - min).abs() * zoom
}

// The short form of narrowing is inlined where both sides take it; else the general function is called.
#[tactic(auto, unfolding(crate::specs::Screen::screen_size, crate::specs::Screen::side))]
pub fn screen_size(bbox: WorldBBox, zoom: f64) -> ScreenSize
    ensures { result ≡ screen_size bbox zoom }
{
    let width = wide_side(bbox.min_x, bbox.max_x, zoom);
    let height = wide_side(bbox.min_y, bbox.max_y, zoom);
    if rounding::narrows_to_normal(width) && rounding::narrows_to_normal(height) {
        return ScreenSize {
            width: rounding::narrow_normal(width),
            height: rounding::narrow_normal(height),
        };
    }
    ScreenSize {
        width: rounding::f64_to_f32(width),
        height: rounding::f64_to_f32(height),
    }
}

// Content of a fixed size, as a text, counts as 24 px at least.
#[tactic(auto, unfolding(crate::specs::Screen::reference_screen_size, crate::proofs::Patterns::patterns))]
pub fn reference_screen_size(bbox: WorldBBox, zoom: f64, source_is_degenerate: bool) -> ScreenSize
    ensures { result ≡ reference_screen_size bbox zoom source_is_degenerate }
{
    let size = screen_size(bbox, zoom);
    if source_is_degenerate {
        return ScreenSize {
            width: floats::order::max(size.width, MIN_FIXED_CONTENT_PX),
            height: floats::order::max(size.height, MIN_FIXED_CONTENT_PX),
        };
    }
    size
}

// Skipped: a size that is not finite, or under one pixel in width and in height.
#[tactic(auto, unfolding(crate::specs::Screen::is_subpixel))]
pub fn is_subpixel(size: ScreenSize) -> bool
    ensures { result ≡ is_subpixel size }
{
    !size.width.is_finite() || !size.height.is_finite() || (size.width < 1.0 && size.height < 1.0)
}

// The area is finite and leaves at most `limit` square pixels to each of `count`, all in f32.
#[tactic(auto, unfolding(crate::specs::Screen::average_area_within))]
fn average_area_within(size: ScreenSize, count: u64, limit: f32) -> bool
    ensures { result ≡ average_area_within size count limit }
{
    let area_px = size.width * size.height;
    area_px.is_finite() && area_px / rounding::u64_to_f32(count) <= limit
}

// The last test of `should_collapse_reference`.
#[tactic(auto, unfolding(crate::specs::Screen::is_dense, crate::proofs::Patterns::patterns))]
fn is_dense(size: ScreenSize, count: u64) -> bool
    ensures { result ≡ is_dense size count }
{
    average_area_within(size, count, REF_LOAD_MIN_AVG_INSTANCE_AREA_PX)
}

// The test of `push_geometry`.
#[tactic(auto, unfolding(crate::specs::Screen::is_dense_batch, crate::proofs::Patterns::patterns))]
pub fn is_dense_batch(size: ScreenSize, element_count: u32) -> bool
    ensures { result ≡ is_dense_batch size element_count }
{
    element_count >= DENSE_BATCH_MIN_ELEMENTS
        && average_area_within(size, element_count as u64, MIN_AVERAGE_ELEMENT_AREA_PX)
}

// Which test of `should_collapse_reference` sends a reference to a box.
#[derive(Clone, Copy, PartialEq, Eq)]
pub enum CollapseTest {
    Depth,
    Side,
    Grid,
    Density,
}

// `should_collapse_reference`, naming the first test that is met, if any is.
#[tactic(auto, unfolding(crate::specs::Screen::collapse_test, crate::proofs::Patterns::patterns))]
pub fn collapse_test(
    size: ScreenSize,
    grid_count: u64,
    draw_unit_count: u64,
    reference_depth: u32,
    force_bbox: bool,
) -> Option<CollapseTest>
    ensures { result ≡ collapse_test size.width size.height grid_count draw_unit_count reference_depth force_bbox }
{
    if force_bbox || reference_depth <= 1 {
        return Some(CollapseTest::Depth);
    }
    if size.width < REF_LOAD_THRESHOLD_PX || size.height < REF_LOAD_THRESHOLD_PX {
        return Some(CollapseTest::Side);
    }
    if grid_count > REF_MAX_GRID_EXPANSION {
        return Some(CollapseTest::Grid);
    }
    if draw_unit_count < REF_DENSE_GRID_MIN_INSTANCES {
        return None;
    }
    if is_dense(size, draw_unit_count) {
        return Some(CollapseTest::Density);
    }
    None
}
