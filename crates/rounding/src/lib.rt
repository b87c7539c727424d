// Conversions to f32, each for every input: NaN, the infinities, the zeros of both signs, the subnormals
// and overflow; and the steps under them that the crate `fused` shares. A conversion's contract is one
// equation with a definition in the style of the toolchain's model of IEEE 754, `lib.Ieee`; the one that
// it lacks stands in specs/ (`Narrow`).
//
// The work is done on the sign, exponent and fraction fields of the u64 and u32 patterns, by shifts and
// masks, and rounded by one step that serves both widths. Normal f32s and counts below 2^32 have a
// shorter way.

#![tactic(auto)]

// f64 to f32, and u64 to f32: to nearest, ties to even.
mod convert;

// The fields of an f64's pattern.
pub mod decode;

// The rounding step: normalise, round to nearest, pack.
pub mod nearest;

pub use convert::{f64_to_f32, narrow_normal, narrows_to_normal, u64_to_f32};
