// What a plan passes on: the totals with the tape's end, where a limit halted a visit, the query, what is given and does not change during a plan,
// why a box was made, and why a call is refused. The rules themselves are in specs/.

#![tactic(auto)]

mod refusal;

use check_sheet::Counts;
use geometry::bbox::WorldBBox;
pub use refusal::{PlanError, QueryError};

// The tape's end, the texts and proxies listed so far, the six totals of `SceneStats` in its field order, and the proxies that met a full list.
// The limits are tested on these numbers, so one struct stands for the Rust's `ScenePlan` with its lists' lengths.
#[derive(Clone, Copy, Default)]
pub struct ScenePlan {
    pub tape_end: u64,
    pub texts: u64,
    pub load_proxies: u64,
    pub detail_cells: u64,
    pub detail_objects: u64,
    pub culled_references: u64,
    pub skipped_subpixel_references: u64,
    pub culled_geometry_batches: u64,
    pub skipped_subpixel_geometry_batches: u64,
    pub dropped_load_proxies: u64,
}

// The plan as a limit left it: the visit is over, where a `Result` has `Ok` it goes on. The Rust's `false`.
#[derive(Clone, Copy)]
pub struct Halted {
    pub plan: ScenePlan,
}

// "A query: root cell 4, depth 4, view 4 f, zoom f": the hidden layers stand in a slice beside it.
#[derive(Clone, Copy)]
pub struct SceneOptions {
    pub root: u32,
    pub depth: u32,
    pub view: WorldBBox,
    pub zoom: f64,
}

// What does not change during a plan: the query without its hidden layers, the object limit, and how many records of each kind the sheet has.
#[derive(Clone, Copy)]
pub struct Fixed {
    pub options: SceneOptions,
    pub object_limit: u64,
    pub counts: Counts,
}

// What a plan is given, lent to its end: the sheet's bytes, its finder (an empty one is none), the hidden layers, and what goes by value.
#[derive(Clone, Copy)]
pub struct Given<'a> {
    pub sheet: &'a [u8],
    pub finder: &'a [u32],
    pub hidden: &'a [u32],
    pub fixed: Fixed,
}

// Why a box was made: document 02's nine reasons, in its order and with its numbers.
#[derive(Clone, Copy)]
pub enum Reason {
    DepthZero, // 1
    CellLimit, // 2
    OtherLimit, // 3
    Circle, // 4
    DepthAtMostOne, // 5
    SmallSide, // 6
    LargeGrid, // 7
    DenseReference, // 8
    DenseBatch, // 9
}
