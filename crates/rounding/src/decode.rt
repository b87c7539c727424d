// The fields of an f64's pattern: the exponent's field (bits 52 to 62) and the fraction (bits 0 to 51).
// A finite value is its significand times 2^(its exponent - 1074).
ghost use Rattle.std.specs.Prelude.{◌≡◌};
ghost use Rattle.rounding.specs.Fields.{exponent_field_of, significand_of, exponent_of, Normalised};

use crate::nearest::leading_zeros;

// The exponent's field of the pattern n: 0 for a zero or a subnormal, 7ff for an infinity or a NaN.
pub fn exponent_field_of(n: u64) -> u64
    ensures { result ≡ exponent_field_of n }
{
    (n >> 52) & 0x7ff
}

// The fraction of the pattern n, with the leading one where the exponent's field is not 0.
pub(crate) fn significand_of(n: u64) -> u64
    ensures { result ≡ significand_of n }
{
    let field = exponent_field_of(n);
    let fraction = n & 0xf_ffff_ffff_ffff;
    if field == 0 {
        fraction
    } else {
        fraction | 0x10_0000_0000_0000
    }
}

// The exponent of the significand's last digit, counted from that of the smallest value. A subnormal
// has that of the smallest normal value.
pub(crate) fn exponent_of(n: u64) -> u64
    ensures { result ≡ exponent_of n }
{
    let field = exponent_field_of(n);
    if field == 0 { 0 } else { field - 1 }
}

// A significand that was shifted up, and its exponent then, counted from that of the smallest value
// less 63.
#[derive(Clone, Copy)]
pub struct Scaled {
    pub significand: u64,
    pub exponent: u64,
}

// The significand of the pattern n shifted up until its top bit stands at bit 62, so that a product of
// two leaves one bit for a carry. A zero stays 0, with the exponent 0.
pub fn normalised(n: u64) -> Scaled
    ensures { Normalised n result.significand result.exponent }
{
    let digits = significand_of(n);
    if digits == 0 {
        return Scaled {
            significand: 0,
            exponent: 0,
        };
    }
    let zeros = leading_zeros(digits);
    let exponent = exponent_of(n);
    Scaled {
        significand: digits << (zeros - 1),
        exponent: exponent + 64 - zeros,
    }
}
