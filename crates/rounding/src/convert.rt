// Conversions to f32, rounded to nearest, ties to even, as Rust's `as` has them. The smallest f32 is 2^-149.
ghost use Rattle.std.specs.Prelude.{◌≡◌, true, not, T, pos, from_bits};
ghost use Rattle.std.specs.Float.{binary32, binary64};
ghost use Rattle.std.specs.Float.Ieee.{of_int, nan_bits};
ghost use Rattle.rounding.specs.Narrow.{narrow, narrows_to_normal};
ghost use Rattle.rounding.specs.Packed.{Encodes};

use crate::decode::{exponent_field_of, exponent_of, significand_of};
use crate::nearest::{leading_zeros, pack_as};

// The count n as the nearest f32. One below 2^32 is left to std, which converts its halves and adds them.
pub fn u64_to_f32(n: u64) -> f32
    ensures { result ≡ of_int binary32 (pos n) }
{
    if n < 0x1_0000_0000 {
        return std::num::nearest_u32_to_f32(n as u32);
    }
    let s = leading_zeros(n);
    f32::from_bits(pack_as::<f32>(n << s, 149, s) as u32)
}

// x as the nearest f32.
pub fn f64_to_f32(x: f64) -> f32
    ensures { result ≡ narrow x }
{
    if x.is_nan() {
        return f32::NAN;
    }
    if narrows_to_normal(x) {
        return narrow_normal(x);
    }
    f32::from_bits(narrow_pattern(f64::to_bits(x)) as u32)
}

// Whether `narrow_normal` narrows x: it is 2^-126, the least normal f32, or more, and below 2^128.
pub fn narrows_to_normal(x: f64) -> bool
    ensures { result ≡ narrows_to_normal x }
{
    x >= 1.1754943508222875e-38 && x < 340282366920938463463374607431768211456.0
}

// Such an x as the nearest f32: a normal one, or the infinity. Half a unit less one and the even bit are
// added below the last digit that stays, and 29 digits go. The bias of an f32 is less by
// 896 = 1023 - 127. A carry steps the exponent.
pub fn narrow_normal(x: f64) -> f32
    requires { narrows_to_normal x ≡ true }
    ensures { result ≡ narrow x }
{
    let n = f64::to_bits(x);
    f32::from_bits(((n - 0x3800_0000_0000_0000 + 0x0fff_ffff + ((n >> 29) & 1)) >> 29) as u32)
}

// The pattern of the f32 nearest to the f64 of the pattern n. The smallest f32 is 2^925 smallest f64s.
fn narrow_pattern(n: u64) -> u64
    requires { T (not (nan_bits binary64 n)) }
    ensures { Encodes binary32 result (narrow (from_bits binary64 n)) }
{
    let sign = (n >> 63) << 31;
    let field = exponent_field_of(n);
    if field == 0x7ff {
        return sign | 0x7f80_0000;
    }
    let digits = significand_of(n);
    if digits == 0 {
        return sign;
    }
    let s = leading_zeros(digits);
    sign | pack_as::<f32>(digits << s, exponent_of(n), s + 925)
}
