// The lent scratch: its places, layer by layer, and the sets and the map of the Rust's planner that stand in them.

#![tactic(auto)]

mod places; // the places, a reader and a writer of them, and how many a plan names
mod memory; // `cell_stack`, `complexity_stack` and `complexity_cache`

pub use memory::{
    Scratch, Stack, cache_contains, cache_get, cache_insert, stack_contains, stack_insert,
    stack_remove,
};
pub use places::{counts_named, marks_named};
