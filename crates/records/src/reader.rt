// The reader of any record at an offset, whole or cut short by the end of the bytes.
ghost use Rattle.std.specs.Prelude.{◌≡◌, ℕ, ◌+◌, ◌^◌, ◌≤◌, ◌<◌, List, length};
ghost use Rattle.records.specs.Format.{reference, end_of};
ghost use Rattle.records.specs.Reading.{ReadsSame};

use crate::parts::{from, length_from, padded};

// What is read of the bytes from an offset on: END of them.
pub trait Record {
    const END: usize;

    ghost END: { ℕ };

    ghost read: { List ℕ → ℕ → Self };

    fn within(s: &[u8], at: usize) -> Self
        requires { at + END ≤ length s.now }
        ensures { result ≡ read s.now at };

    // A copy of as many bytes as a reference has is enough for any.
    ghost size: { (0 < END) × (END ≤ end_of reference) };
}

// One test that the whole record lies within the bytes spares one at each field; of a record cut short by their end a copy with zeros after it is read.
// The record stands `place` bytes after an offset.
pub fn read_at<R: Record>(s: &[u8], at: usize, place: usize) -> R
    requires no_overflow { place < 2 ^ 63 }
    requires same { ReadsSame R.read s.now (at + place) }
    ensures { result ≡ R.read s.now (at + place) }
{
    if place + R::END <= length_from(s, at) {
        return R::within(s, at + place);
    }
    R::within(&padded(from(s, at), place), 0)
}
