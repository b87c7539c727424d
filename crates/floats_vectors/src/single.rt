// An f32 as the 32 bits that stand for it, for every input, as `floats::pattern` has it for f64.
ghost use Rattle.std.specs.Prelude.{◌≡◌, ◌%◌, ◌^◌};
ghost use Rattle.std.specs.Float.{binary32};
ghost use Rattle.std.specs.Float.Ieee.{of_bits, to_bits};

// The pattern of x, any NaN as 7FC00000.
pub(crate) fn f32_to_bits(x: f32) -> u64
    ensures { result ≡ to_bits binary32 x }
{
    if x != x {
        return 0x7fc0_0000;
    }
    f32::to_bits(x) as u64
}

// The float of the pattern n, any NaN where n is a NaN's pattern or longer than 32 bits.
pub(crate) fn f32_from_bits(n: u64) -> f32
    ensures { result ≡ of_bits binary32 (n % 2 ^ 32) }
{
    let bits = n & 0xffff_ffff;
    if bits & 0x7fff_ffff <= 0x7f80_0000 {
        f32::from_bits(bits as u32)
    } else {
        0.0 / 0.0
    }
}
