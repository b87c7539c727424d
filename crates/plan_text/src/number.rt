// Numbers as digits: decimal without leading zeros, and the 16 hexadecimal digits of a float's pattern.
ghost use Rattle.std.specs.Prelude.{◌≡◌, ◌≤◌, ◌<◌, length};
ghost use Rattle.plan_text.specs.Text.{digit, digits, decimal_size};

// 0 to 9, then a to f.
#[tactic(auto, using(std::proofs::lemmas::Bool::Decides::nat_tests), unfolding(crate::specs::Text::digit))]
fn digit(d: u64) -> u8
    requires { d < 16 }
    ensures { result ≡ digit d }
{
    if d < 10 {
        return b'0' + d as u8;
    }
    b'a' - 10 + d as u8
}

// How many decimal digits a number has: at most 20.
pub(crate) fn decimal_size(n: u64) -> usize
    ensures { (result ≡ decimal_size n) × (result ≤ 20) }
{
    let mut size = 1;
    let mut rest = n;
    while 10 <= rest {
        rest /= 10;
        size += 1;
    }
    size
}

// Fills the places with the last digits of a number.
pub(crate) fn put_digits(places: &mut [u8], radix: u64, n: u64)
    requires positive { 0 < radix }
    requires at_most_16 { radix ≤ 16 }
    ensures { places.new ≡ digits radix (length places.old) n }
{
    let mut rest = n;
    for i in (0..places.len()).rev() {
        places[i] = digit(rest % radix);
        rest /= radix;
    }
}
