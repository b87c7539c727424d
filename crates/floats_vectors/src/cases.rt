// A case is a line: the operands' patterns and the answer's, in hexadecimal. A line that starts with '#' is a comment.
ghost use Rattle.std.specs.Prelude.{◌-◌, ◌≤◌, length};

use crate::text::{behind_line, first_word};
use std::ops::Add;

// What is replayed: the vectors of a file, how many operands a case has, and the pattern that the operation gives on their patterns, where
// one that is missing is 0. What each call gives is its contract.
#[derive(Drop)]
pub(crate) struct Group {
    pub(crate) name: &'static str,
    pub(crate) file: &'static str,
    operands: usize,
    operation: fn([u64; 3]) -> u64,
    ghost callable: { IsAlwaysCallable operation },
}

// How many cases passed and failed: counts that stop at 2^64 - 1.
#[derive(Clone, Copy, Default)]
pub(crate) struct Tally {
    pub(crate) passed: u64,
    pub(crate) failed: u64,
}

impl Add for Tally {
    type Output = Tally;

    fn add(self, other: Tally) -> Tally {
        Tally {
            passed: self.passed.saturating_add(other.passed),
            failed: self.failed.saturating_add(other.failed),
        }
    }
}

impl Tally {
    // What one case comes to.
    pub(crate) fn of(passed: bool) -> Tally {
        Tally {
            passed: passed as u64,
            failed: !passed as u64,
        }
    }
}

impl Group {
    pub(crate) fn new(
        name: &'static str,
        file: &'static str,
        operands: usize,
        operation: fn([u64; 3]) -> u64,
    ) -> Self
        requires { IsAlwaysCallable operation }
    {
        Group {
            name,
            file,
            operands,
            operation,
        }
    }

    // Whether the first case passed, and the text behind it.
    fn first_case<'a>(&self, text: &'a [u8]) -> (bool, &'a [u8])
        ensures { length result.1.now ≤ length text.now - 1 }
    {
        let mut rest = text;
        let mut operands = [0u64; 3];
        for operand in operands.iter_mut().take(self.operands) {
            let (value, behind) = first_word(rest);
            *operand = value;
            rest = behind;
        }
        let (expected, behind) = first_word(rest);
        ((self.operation)(operands) == expected, behind)
    }

    // How many of the text's cases passed and failed.
    pub(crate) fn replay(&self, text: &[u8]) -> Tally {
        let mut tally = Tally::default();
        let mut rest = text;
        while let [first, ..] = rest {
            if *first == b'#' {
                rest = behind_line(rest);
            } else {
                let (passed, behind) = self.first_case(rest);
                tally = tally + Tally::of(passed);
                rest = behind;
            }
        }
        tally
    }
}
