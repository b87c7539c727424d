// The fused operation: x * y + z, rounded once. The product of two significands and the addend are two
// terms of 128 bits each. The term of the lower exponent is shifted down to meet the other, rounded to
// odd, and the sum of the two is rounded to nearest by the shared step.
ghost use Rattle.std.specs.Prelude.{◌≡◌, cond, ℕ, ◌*◌, ◌^◌, ◌≤◌, ◌<◌, leb};
ghost use Rattle.std.specs.Float.{binary64};
ghost use Rattle.std.specs.Float.Ieee.{of_bits, round, sum, unlike};
ghost use Rattle.fused.specs.Fma.{fma};
ghost use Rattle.rounding.specs.Fields.{exponent_field_of, significand_of, exponent_of};
ghost use Rattle.rounding.specs.Packed.{Encodes};
ghost use Rattle.fused.specs.RoundToOdd.{RoundsWideToOdd};
ghost use Rattle.fused.specs.Wide.{Operand};
ghost use Rattle.fused.specs.Units.{unit_or_zero};

use crate::wide::{leading_word, shift_to_odd};
use rounding::decode::{exponent_field_of, normalised};
use rounding::nearest::pack_as;

// x * y + z, rounded once. Where a factor is 0, 1 or -1 the product is exact, so that one multiply and
// one add round once too. y is tested first: where a placement is rotated by a quarter turn it is the
// cosine or the sine.
pub fn mul_add(x: f64, y: f64, z: f64) -> f64
    ensures { result ≡ fma binary64 x y z }
{
    if is_unit_or_zero(y) {
        return x * y + z;
    }
    if is_unit_or_zero(x) {
        return x * y + z;
    }
    mul_add_rounded(x, y, z)
}

// Whether v is 0, 1 or -1: the fraction is 0, and the exponent's field f is 0 or 1023. For those two and
// no other f the number f * 1023 modulo 2048 is 0 or 1, since 1023 is its own inverse there. One test on
// the bits takes no branch that a processor could guess wrongly, where a test for each value takes three.
fn is_unit_or_zero(v: f64) -> bool
    ensures { result ≡ unit_or_zero v }
{
    if v.is_nan() {
        return false;
    }
    let n = v.to_bits();
    let field = exponent_field_of(n);
    let other = ((field * 1023) & 0x7ff) >> 1;
    let fraction = n & 0xf_ffff_ffff_ffff;
    (other | fraction) == 0
}

// The fused operation for every input: a NaN is passed on, an infinity makes the plain product or sum
// exact, and three finite numbers go by their patterns.
fn mul_add_rounded(x: f64, y: f64, z: f64) -> f64
    ensures { result ≡ fma binary64 x y z }
{
    if x.is_nan() {
        return f64::NAN;
    }
    if y.is_nan() {
        return f64::NAN;
    }
    if z.is_nan() {
        return f64::NAN;
    }
    let a = x.to_bits();
    let b = y.to_bits();
    let c = z.to_bits();
    let fa = exponent_field_of(a);
    if fa == 0x7ff {
        return x * y + z;
    }
    let fb = exponent_field_of(b);
    if fb == 0x7ff {
        return x * y + z;
    }
    let fc = exponent_field_of(c);
    if fc == 0x7ff {
        return z;
    }
    f64::from_bits(fused_pattern(a, b, c))
}

// The pattern of x * y + z, rounded once, by the patterns of three finite numbers.
fn fused_pattern(x: u64, y: u64, z: u64) -> u64
    requires { (exponent_field_of x ≡ 2047 → ⊥) × (exponent_field_of y ≡ 2047 → ⊥) × (exponent_field_of z ≡ 2047 → ⊥) }
    ensures { Encodes binary64 result (fma binary64 (of_bits binary64 x) (of_bits binary64 y) (of_bits binary64 z)) }
{
    let product = product_term(x, y);
    let addend = addend_term(z);
    if product.exponent < addend.exponent {
        aligned_sum(addend, product)
    } else {
        aligned_sum(product, addend)
    }
}

// A term of the sum: ±significand * 2^exponent, over 2^2274.
#[derive(Clone, Copy)]
struct Term {
    negative: bool,
    significand: u128,
    exponent: u64,
    ghost is_operand: { Operand significand exponent },
}

impl Term {
    // A zero gets the exponent 0, so that it never leads.
    fn new(negative: bool, significand: u128, exponent: u64) -> Term
        requires { 0 < significand → Operand significand exponent }
        ensures sign { result.negative ≡ negative }
        ensures value { result.significand * 2 ^ result.exponent ≡ significand * 2 ^ exponent }
    {
        if significand == 0 {
            return Term {
                negative,
                significand,
                exponent: 0,
            };
        }
        Term {
            negative,
            significand,
            exponent,
        }
    }
}

// The whole product of the finite numbers of the patterns x and y.
fn product_term(x: u64, y: u64) -> Term
    ensures sign { result.negative ≡ unlike (leb (2 ^ 63) x) (leb (2 ^ 63) y) }
    ensures value { result.significand * 2 ^ result.exponent ≡ significand_of x * 2 ^ exponent_of x * (significand_of y * 2 ^ exponent_of y) * 2 ^ 126 }
{
    let u = normalised(x);
    let v = normalised(y);
    let significand = u.significand as u128 * v.significand as u128;
    Term::new((x >> 63) != (y >> 63), significand, u.exponent + v.exponent)
}

// The finite number of the pattern z, at the scale of such a product.
fn addend_term(z: u64) -> Term
    ensures sign { result.negative ≡ leb (2 ^ 63) z }
    ensures value { result.significand * 2 ^ result.exponent ≡ significand_of z * 2 ^ exponent_of z * 2 ^ 1200 }
{
    let w = normalised(z);
    let significand = (w.significand as u128) << 64;
    Term::new((z >> 63) != 0, significand, w.exponent + 1073)
}

// The pattern of x + y, rounded. y is shifted down to meet x. The difference of equal terms is 0.0.
fn aligned_sum(x: Term, y: Term) -> u64
    requires { y.exponent ≤ x.exponent }
    ensures { Encodes binary64 result (sum binary64 x.negative (x.significand * 2 ^ x.exponent) y.negative (y.significand * 2 ^ y.exponent) (2 ^ 2274)) }
{
    let shifted = shift_to_odd(y.significand, x.exponent - y.exponent);
    if x.negative == y.negative {
        return round_wide(x.negative, x.significand + shifted, x.exponent);
    }
    if x.significand < shifted {
        return round_wide(y.negative, shifted - x.significand, x.exponent);
    }
    let rest = x.significand - shifted;
    if rest == 0 {
        return 0;
    }
    round_wide(x.negative, rest, x.exponent)
}

// The pattern of n / 2^2274 with the sign s, rounded, where w is n / 2^e rounded to odd. The smallest f64
// is 2^-1074, which is 2^1200 of what n counts.
fn round_wide(s: bool, w: u128, e: u64) -> u64
    requires { e < 2 ^ 31 }
    ensures { (n : ℕ) → RoundsWideToOdd w n (2 ^ e) → Encodes binary64 result (round binary64 s n (2 ^ 2274)) }
{
    let sign = sign_bit(s);
    if w == 0 {
        return sign;
    }
    let leading = leading_word(w);
    sign | pack_as::<f64>(leading.word, e + 64, leading.shift + 1200)
}

fn sign_bit(s: bool) -> u64
    ensures { result ≡ cond s (2 ^ 63) 0 }
{
    if s { 0x8000_0000_0000_0000 } else { 0 }
}
