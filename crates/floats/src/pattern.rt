// An f64 as the 64 bits that stand for it. The language's own `to_bits` and `from_bits` leave NaNs
// out, since compiled code may give a NaN any of its patterns; these take every input.
ghost use Rattle.std.specs.Prelude.{◌≡◌};
ghost use Rattle.std.specs.Float.{binary64};
ghost use Rattle.std.specs.Float.Ieee.{of_bits, to_bits};
ghost use Rattle.floats.specs.Order.{is_finite};

// The pattern of x, any NaN as 7FF8000000000000.
pub fn f64_to_bits(x: f64) -> u64
    ensures { result ≡ to_bits binary64 x }
{
    if x.is_nan() {
        0x7ff8_0000_0000_0000
    } else {
        x.to_bits()
    }
}

// The float of the pattern n: a NaN where the exponent's field is all ones and a fraction bit is set,
// which is where n without its sign is above an infinity's pattern.
pub fn f64_from_bits(n: u64) -> f64
    ensures { result ≡ of_bits binary64 n }
{
    if n & 0x7fff_ffff_ffff_ffff <= 0x7ff0_0000_0000_0000 {
        f64::from_bits(n)
    } else {
        f64::NAN
    }
}

// Whether n is the pattern of a finite float: its exponent's field is not all ones.
pub fn is_finite_pattern(n: u64) -> bool
    ensures { result ≡ is_finite (of_bits binary64 n) }
{
    n % 0x8000_0000_0000_0000 / 0x10_0000_0000_0000 != 2047
}
