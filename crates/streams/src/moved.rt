// What an answer to a `read` or a `write` means.
ghost use Rattle.std.specs.Prelude.{◌≡◌};
ghost use Rattle.streams.specs.Moving.{moved_of};

use std::io::{ErrorKind, Result};

// So many bytes moved; none, which is a read's end; interrupted before a byte was moved; or failed.
// Kept: beside `io::Result`, of which it is the meaning: `moved_of` and `input_of` (docs/TRUST.md) are stated on its cases.
#[derive(Clone, Copy, Debug, PartialEq, Eq)]
pub(crate) enum Moved {
    Bytes(usize),
    Nothing,
    Interrupted,
    Failed,
}

// A call that is interrupted so often has failed: a proved loop has to end, and nothing says that interruptions do.
pub(crate) const TRIES: u32 = 1_000_000;

impl From<Result<usize>> for Moved {
    ghost from_gives = { λ got moved. moved ≡ moved_of got };

    fn from(got: Result<usize>) -> Moved {
        match got {
            Ok(0) => Moved::Nothing,
            Ok(count) => Moved::Bytes(count),
            Err(error) if error.kind() == ErrorKind::Interrupted => Moved::Interrupted,
            Err(_) => Moved::Failed,
        }
    }
}
