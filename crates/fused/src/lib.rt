// The fused operation, for every input: NaN, the infinities, the zeros of both signs, the subnormals and
// overflow. Its contract is one equation with a definition in the style of the toolchain's model of
// IEEE 754, `lib.Ieee`, which lacks it: `Fma` of specs/.
//
// It is worked on the sign, exponent and fraction fields of the u64 patterns, by shifts and masks, and
// rounded by the step of the crate `rounding`.

#![tactic(auto)]

// x * y + z, rounded once.
mod multiply_add;

// The shifts of its numbers of 128 bits.
mod wide;

pub use multiply_add::mul_add;
