// The order of floats as document 01 reads it: a NaN is passed over, and of equal values the first is
// taken, the sign of zero included. (std's `min` and `max` leave open which of two equals they give.)
ghost use Rattle.std.specs.Prelude.{◌≡◌, Float};
ghost use Rattle.std.specs.Float.Ieee.{lt, is_nan};
ghost use Rattle.floats.specs.Order.{min_num, max_num};

// A float of either width, with the two tests that the order rests on.
pub trait IeeeFloat: Copy {
    ghost value: { Self → Float };

    fn is_not_number(self) -> bool
        ensures { result ≡ is_nan (value self) };

    fn is_below(self, other: Self) -> bool
        ensures { result ≡ lt (value self) (value other) };
}

impl IeeeFloat for f32 {
    ghost value = { λ x. x };

    fn is_not_number(self) -> bool {
        self.is_nan()
    }

    fn is_below(self, other: f32) -> bool {
        self < other
    }
}

impl IeeeFloat for f64 {
    ghost value = { λ x. x };

    fn is_not_number(self) -> bool {
        self.is_nan()
    }

    fn is_below(self, other: f64) -> bool {
        self < other
    }
}

// The lesser of a and b.
pub fn min<F: IeeeFloat>(a: F, b: F) -> F
    ensures { F.value result ≡ min_num (F.value a) (F.value b) }
{
    if a.is_not_number() {
        return b;
    }
    if b.is_not_number() {
        return a;
    }
    if b.is_below(a) { b } else { a }
}

// The greater of a and b.
pub fn max<F: IeeeFloat>(a: F, b: F) -> F
    ensures { F.value result ≡ max_num (F.value a) (F.value b) }
{
    if a.is_not_number() {
        return b;
    }
    if b.is_not_number() {
        return a;
    }
    if a.is_below(b) { b } else { a }
}
