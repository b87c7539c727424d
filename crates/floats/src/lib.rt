// Order and patterns of floats, each for every input: NaN, the infinities, the zeros of both signs and the
// subnormals. A contract is one equation with a definition in the style of the toolchain's model of
// IEEE 754, `lib.Ieee`; those that it lacks stand in specs/ (`Order`). Absolute value and finiteness are
// std's `abs` and `is_finite`. The operations that round are the crates `rounding` and `fused`.

#![tactic(auto)]

// Least and greatest, of either width.
pub mod order;

// An f64 to its pattern and back, total, and whether a pattern is that of a finite one.
pub mod pattern;
