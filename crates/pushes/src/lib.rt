// What a plan lists, each item by the test and in the order of bevy_scene.rs: `push_geometry`, `push_text`, `push_node`.
// Every function is total. What it leaves of the plan and of the output is what the rules' definition of the same name says.

#![tactic(auto)]

mod hidden; // the hidden layers
mod items; // batches, texts and nodes by number

pub use items::{push_geometry, push_node, push_text};
