// Numbers of 8 bytes, one after the other.
ghost use Rattle.std.specs.Prelude.{◌≡◌, ◌+◌, ◌*◌, ◌≤◌, length, map, refl};
ghost use Rattle.std.proofs.lemmas.List.Edits.{sets};
ghost use Rattle.fields.specs.Field.{Field, uint, f64, width, field_bytes, record_bytes};

// A total or a float.
pub trait Number: Copy {
    ghost field: { Self → Field };

    fn put(self, out: &mut [u8], at: usize)
        ensures { out.new ≡ sets out.old at (field_bytes (field self)) };

    ghost wide: { (x : Self) → width (field x) ≡ 8 };
}

impl Number for u64 {
    ghost field = { λ n. uint 8 n };

    ghost wide = { λ n. refl };

    fn put(self, out: &mut [u8], at: usize) {
        fields::put_u64(out, at, self);
    }
}

impl Number for f64 {
    ghost field = { λ x. f64 x };

    ghost wide = { λ x. refl };

    fn put(self, out: &mut [u8], at: usize) {
        fields::put_f64(out, at, self);
    }
}

// In a record of few numbers, the loop is unrolled where it is inlined.
#[inline]
pub fn put_all<T: Number>(out: &mut [u8], at: usize, numbers: &[T])
    requires { at + 8 * length numbers.now ≤ length out.old }
    ensures { out.new ≡ sets out.old at (record_bytes (map T.field numbers.now)) }
{
    let mut next = at;
    for number in numbers {
        number.put(out, next);
        next += 8;
    }
}
