// The two shifts of the fused sum, whose numbers have 128 bits. What a shift cuts off is kept as a sticky
// bit, so that the number is rounded to odd.
ghost use Rattle.std.specs.Prelude.{◌≡◌, ◌^◌, ◌<◌};
ghost use Rattle.rounding.specs.RoundToOdd.{RoundsToOdd};
ghost use Rattle.fused.specs.RoundToOdd.{with_sticky};
ghost use Rattle.fused.specs.Wide.{LeadingWord};

// n with the sticky bit: made odd where the rest that was cut off below it is not 0.
fn with_sticky(n: u128, rest: u128) -> u128
    ensures { result ≡ with_sticky n rest }
{
    if rest == 0 { n } else { n | 1 }
}

// n / 2^d, rounded to odd.
pub(crate) fn shift_to_odd(n: u128, d: u64) -> u128
    ensures { RoundsToOdd result n (2 ^ d) }
{
    if d == 0 {
        n
    } else if d < 128 {
        with_sticky(n >> d, n << (128 - d))
    } else {
        with_sticky(0, n)
    }
}

// The upper word of a number that was shifted up, and how far.
#[derive(Clone, Copy)]
pub(crate) struct Leading {
    pub(crate) word: u64,
    pub(crate) shift: u64,
}

// n normalised by the count of its leading zeros: its upper word then, rounded to odd.
pub(crate) fn leading_word(n: u128) -> Leading
    requires { 0 < n }
    ensures { LeadingWord n result.word result.shift }
{
    let shift = n.leading_zeros() as u64;
    let top = n << shift;
    let word = with_sticky(top >> 64, top & 0xffff_ffff_ffff_ffff);
    Leading {
        word: word as u64,
        shift,
    }
}
