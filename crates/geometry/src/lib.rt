// Placements and boxes, step by step as the Rust has them: drawable.rs (`WorldBBox`) and the helpers of bevy_scene.rs.
// Every function is total, and equals a definition of specs/ over the values of IEEE 754, NaN and infinities included.

#![tactic(auto)]

pub mod bbox;
pub mod placement;
