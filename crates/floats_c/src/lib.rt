// The fused operation, the two conversions and the absolute value for C and Rust to call, under the
// contracts of `fused`, `rounding` and `floats`. `bench/floats` measures them and compares them with the
// hardware.

#![tactic(auto)]

ghost use Rattle.std.specs.Prelude.{◌≡◌, pos};
ghost use Rattle.std.specs.Float.{binary32, binary64};
ghost use Rattle.std.specs.Float.Ieee.{of_int};
ghost use Rattle.floats.specs.Order.{abs};
ghost use Rattle.fused.specs.Fma.{fma};
ghost use Rattle.rounding.specs.Narrow.{narrow};

// x * y + z, rounded once.
#[unsafe(no_mangle)]
pub extern "C" fn floats_mul_add(x: f64, y: f64, z: f64) -> f64
    ensures { result ≡ fma binary64 x y z }
{
    fused::mul_add(x, y, z)
}

// x as the nearest f32.
#[unsafe(no_mangle)]
pub extern "C" fn floats_f64_to_f32(x: f64) -> f32
    ensures { result ≡ narrow x }
{
    rounding::f64_to_f32(x)
}

// The count n as the nearest f32.
#[unsafe(no_mangle)]
pub extern "C" fn floats_u64_to_f32(n: u64) -> f32
    ensures { result ≡ of_int binary32 (pos n) }
{
    rounding::u64_to_f32(n)
}

// x with the sign bit cleared.
#[tactic(auto, unfolding(floats::specs::Order::abs))]
#[unsafe(no_mangle)]
pub extern "C" fn floats_f64_abs(x: f64) -> f64
    ensures { result ≡ abs x }
{
    x.abs()
}
