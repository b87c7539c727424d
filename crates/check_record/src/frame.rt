// Question 2.
ghost use Rattle.std.specs.Prelude.{◌≡◌};
ghost use Rattle.check_record.specs.Frame.{frame_ok};

use fields::HEAD;

// "Are 6 bytes left, and is the length at least 6 and within the sheet?"
#[tactic(auto, using(crate::proofs::Tests::tests), unfolding(crate::specs::Frame::frame_ok, crate::specs::Tests::both))]
pub fn frame_ok(s: &[u8], at: usize) -> bool
    ensures { result ≡ frame_ok s.now at }
{
    if s.len() <= at {
        return false;
    }
    let left = s.len() - at;
    if left < HEAD {
        return false;
    }
    let length = fields::u32_within(s, at) as usize;
    HEAD <= length && length <= left
}
