// The entry points for C and Rust to call, under their contracts. `include/ribaltzen.h` declares them for C, `rust/` wraps them for Rust.
// Any bytes, any query, any finder and any lent memory get an answer; there is no `requires`.

#![tactic(auto)]

mod numbers; // a query from numbers and floats, and an answer in numbers
mod plans; // `scene_plan` and `scene_plan_with_finder`
mod open; // `scene_open`
