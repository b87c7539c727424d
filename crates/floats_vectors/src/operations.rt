// The operations, on the patterns of up to three operands. The names with `single` are on f32.

use crate::single::{f32_from_bits, f32_to_bits};
use floats::order;
use floats::pattern::{f64_from_bits, f64_to_bits};

pub(crate) fn mul_add([x, y, z]: [u64; 3]) -> u64 {
    f64_to_bits(fused::mul_add(f64_from_bits(x), f64_from_bits(y), f64_from_bits(z)))
}

pub(crate) fn narrow([x, ..]: [u64; 3]) -> u64 {
    f32_to_bits(rounding::f64_to_f32(f64_from_bits(x)))
}

pub(crate) fn count([n, ..]: [u64; 3]) -> u64 {
    f32_to_bits(rounding::u64_to_f32(n))
}

pub(crate) fn least([x, y, _]: [u64; 3]) -> u64 {
    f64_to_bits(order::min(f64_from_bits(x), f64_from_bits(y)))
}

pub(crate) fn greatest([x, y, _]: [u64; 3]) -> u64 {
    f64_to_bits(order::max(f64_from_bits(x), f64_from_bits(y)))
}

pub(crate) fn greatest_single([x, y, _]: [u64; 3]) -> u64 {
    f32_to_bits(order::max(f32_from_bits(x), f32_from_bits(y)))
}

pub(crate) fn absolute([x, ..]: [u64; 3]) -> u64 {
    f64_to_bits(f64_from_bits(x).abs())
}

pub(crate) fn finite([x, ..]: [u64; 3]) -> u64 {
    f64_from_bits(x).is_finite() as u64
}

pub(crate) fn finite_single([x, ..]: [u64; 3]) -> u64 {
    f32_from_bits(x).is_finite() as u64
}

pub(crate) fn pattern([x, ..]: [u64; 3]) -> u64 {
    f64_to_bits(f64_from_bits(x))
}
