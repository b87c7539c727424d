// The rounding step that the conversions and the fused operation share. A result is first brought to a
// word m whose top bit is set and that is rounded to odd: m is exact, or odd and within one unit. Then
// `pack` rounds m to nearest, ties to even, at the format's precision, and answers the pattern's
// magnitude.
ghost use Rattle.std.specs.Prelude.{◌≡◌, ℕ, ◌-◌, ◌*◌, ◌^◌, ◌<◌, ◌≤◌};
ghost use Rattle.std.proofs.Common.{lit<, lit≤};
ghost use Rattle.std.specs.Float.Ieee.Nearest.{closest};
ghost use Rattle.rounding.specs.Packed.{packed};

// How far v is shifted up so that its top bit stands at bit 63.
pub fn leading_zeros(v: u64) -> u64
    requires { 0 < v }
    ensures { (result < 64) × (2 ^ 63 ≤ v * 2 ^ result) × (v * 2 ^ result < 2 ^ 64) }
{
    u64::leading_zeros(v) as u64
}

// m / 2^d to the nearest whole number, a tie to the even one. What is cut off is pushed up to the top
// of a word, where half a unit is 2^63. The quotient takes two shifts, since d may be 64.
pub(crate) fn shift_to_nearest(m: u64, d: u64) -> u64
    requires { 0 < d }
    ensures { result ≡ closest m (2 ^ d) }
{
    if d > 64 {
        return 0;
    }
    let quotient = (m >> (d - 1)) >> 1;
    let rest = m << (64 - d);
    if rest < 0x8000_0000_0000_0000 {
        quotient
    } else if rest > 0x8000_0000_0000_0000 {
        quotient + 1
    } else {
        quotient + (quotient & 1)
    }
}

// The pattern, without its sign, of the float nearest to m * 2^up / 2^down smallest values, at a
// format of `precision` digits whose exponent field is `ones` at an infinity. The exponent's field and
// the fraction are added as one number, so that a carry out of the digits steps the field, and one out
// of the largest value gives the infinity.
pub fn pack(m: u64, up: u64, down: u64, precision: u64, ones: u64) -> u64
    requires { (2 ≤ precision) × (precision ≤ 62) × (up < 2 ^ 32) × (down < 2 ^ 32) × (ones * 2 ^ (precision - 1) < 2 ^ 63) }
    ensures { result ≡ packed precision ones m up down }
{
    let infinity = ones << (precision - 1);
    if 64 + up <= down + precision {
        return shift_to_nearest(m, down - up).min(infinity);
    }
    let field = 64 + up - (down + precision);
    if field >= ones {
        return infinity;
    }
    let magnitude = (field << (precision - 1)) + shift_to_nearest(m, 64 - precision);
    magnitude.min(infinity)
}

// A binary format: how many digits a value has, and the exponent field of an infinity.
pub trait Format {
    ghost PRECISION: { ℕ };

    const PRECISION: u64;

    ghost ONES: { ℕ };

    const ONES: u64;

    ghost sizes: { (2 ≤ PRECISION) × (PRECISION ≤ 62) × (ONES * 2 ^ (PRECISION - 1) < 2 ^ 63) };
}

impl Format for f32 {
    ghost PRECISION = { 24 };

    const PRECISION: u64 = 24;

    ghost ONES = { 255 };

    const ONES: u64 = 255;

    ghost sizes = { (lit≤ tt, lit≤ tt, lit< tt) };
}

impl Format for f64 {
    ghost PRECISION = { 53 };

    const PRECISION: u64 = 53;

    ghost ONES = { 2047 };

    const ONES: u64 = 2047;

    ghost sizes = { (lit≤ tt, lit≤ tt, lit< tt) };
}

// The same of the format F.
pub fn pack_as<F: Format>(m: u64, up: u64, down: u64) -> u64
    requires { (up < 2 ^ 32) × (down < 2 ^ 32) }
    ensures { result ≡ packed F.PRECISION F.ONES m up down }
{
    pack(m, up, down, F::PRECISION, F::ONES)
}
