// The format of a sheet's records: the offset of each field of document 01's table, each where the field before it ends; and the limits of a sheet but for its bytes (`walk`).
// `specs/Format.antt` has the table; the proof of each reader holds these to it.

use fields::HEAD;

// A float, and the floats of a point and of a box, side by side.
pub const FLOAT: usize = 8;

pub const POINT: usize = 2 * FLOAT;

pub const BOX: usize = 4 * FLOAT;

// 1 batch
pub(crate) const GEOMETRY_LAYER: usize = HEAD;

pub(crate) const GEOMETRY_DATA_TYPE: usize = GEOMETRY_LAYER + 2;

pub(crate) const ELEMENT_COUNT: usize = GEOMETRY_DATA_TYPE + 2;

pub const GEOMETRY_BOX: usize = ELEMENT_COUNT + 4;

pub const GEOMETRY_END: usize = GEOMETRY_BOX + BOX;

// 2 text; its value bytes follow
pub(crate) const TEXT_LAYER: usize = HEAD;

pub(crate) const TEXT_DATA_TYPE: usize = TEXT_LAYER + 2;

pub(crate) const TEXT_ORIGIN: usize = TEXT_DATA_TYPE + 2;

pub const TEXT_END: usize = TEXT_ORIGIN + POINT;

// 3 node; its points follow
pub(crate) const NODE_LAYER: usize = HEAD;

pub(crate) const NODE_TYPE: usize = NODE_LAYER + 2;

pub const NODE_END: usize = NODE_TYPE + 2;

// 4 reference
pub const COLUMNS: usize = HEAD;

pub const ROWS: usize = COLUMNS + 2;

pub const REFERENCE_FLAGS: usize = ROWS + 2;

pub(crate) const SOURCE_KIND: usize = REFERENCE_FLAGS + 2;

pub(crate) const SOURCE_NUMBER: usize = SOURCE_KIND + 2;

pub const REFERENCE_ORIGIN: usize = SOURCE_NUMBER + 4;

pub(crate) const SPACING_X: usize = REFERENCE_ORIGIN + POINT;

pub(crate) const SPACING_Y: usize = SPACING_X + POINT;

pub(crate) const MAGNIFICATION: usize = SPACING_Y + POINT;

pub(crate) const COS: usize = MAGNIFICATION + FLOAT;

pub(crate) const SIN: usize = COS + FLOAT;

pub const SOURCE_BOX: usize = SIN + FLOAT;

pub const REFERENCE_END: usize = SOURCE_BOX + BOX;

// 5 cell; the numbers of its lists follow
pub const NUMBER: usize = 4;

pub const CELL_FLAGS: usize = HEAD;

pub(crate) const DRAW_UNITS: usize = CELL_FLAGS + 2;

pub const CELL_BOX: usize = DRAW_UNITS + 8;

pub(crate) const GEOMETRY_COUNT: usize = CELL_BOX + BOX;

pub(crate) const TEXT_COUNT: usize = GEOMETRY_COUNT + 2;

pub(crate) const NODE_COUNT: usize = TEXT_COUNT + 2;

pub(crate) const REFERENCE_COUNT: usize = NODE_COUNT + 2;

pub const CELL_END: usize = REFERENCE_COUNT + 2;

// ---- The limits of a sheet

pub const MAX_CELLS: u32 = 4_096;

// Columns, and rows.
pub const MAX_GRID_SIDE: u16 = 32_767;

pub const MAX_VALUE_BYTES: usize = 512;

pub const MAX_POINTS: usize = 50;
