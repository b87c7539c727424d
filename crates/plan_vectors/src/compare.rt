// The replay: each case is answered and its text compared, the cases of one first word after the other.

use crate::cases::{Case, Cases, Word};
use crate::texts::{Text, is_expected};
use plan_answer::Lent;
use std::io::{Eprint, Write};
use std::ops::Add;
use streams::{NotWhole, Printer};

// How many cases passed and failed.
// Kept: in each comparing program, since a crate of its own for two fields and a line is no plainer.
#[derive(Clone, Copy, Default, PartialEq, Eq)]
struct Tally {
    passed: u64,
    failed: u64,
}

impl Add for Tally {
    type Output = Tally;

    fn add(self, other: Tally) -> Tally {
        Tally {
            passed: self.passed.wrapping_add(other.passed),
            failed: self.failed.wrapping_add(other.failed),
        }
    }
}

impl Tally {
    // One case more.
    fn count(&mut self, passed: bool) {
        if passed {
            self.passed = self.passed.wrapping_add(1);
        } else {
            self.failed = self.failed.wrapping_add(1);
        }
    }

    fn print<W: Write, E: Eprint>(self, to: &mut Printer<W, E>) -> Result<(), NotWhole> {
        to.print_number(self.passed)?;
        to.print(b" passed, ")?;
        to.print_number(self.failed)?;
        to.print(b" failed\n")
    }
}

fn print_wrong<W: Write, E: Eprint>(to: &mut Printer<W, E>, number: u64) -> Result<(), NotWhole> {
    to.print(b"wrong: ")?;
    to.print_number(number)?;
    to.print(b"\n")
}

// Answers a case and compares, prints the answer to the first, and names one that fails by its number.
fn compare_one<W: Write, E: Eprint>(
    to: &mut Printer<W, E>,
    case: Case,
    number: u64,
    tally: &mut Tally,
    lent: &mut Lent,
    text: &mut Text,
) -> Result<(), NotWhole> {
    let answer = plan_answer::answer(case.input, lent);
    let passed = is_expected(case.expected, text, answer, lent.tape);
    if *tally == Tally::default() {
        plan_answer::print_answer(to, text, answer, lent.tape)?;
    }
    tally.count(passed);
    if !passed {
        print_wrong(to, number)?;
    }
    Ok(())
}

// Runs the cases whose texts begin with the word.
fn compare_word<W: Write, E: Eprint>(
    to: &mut Printer<W, E>,
    cases: Cases,
    word: Word,
    lent: &mut Lent,
    text: &mut Text,
) -> Result<Tally, NotWhole> {
    let mut tally = Tally::default();
    for (case, number) in cases.zip(0..u64::MAX) {
        if Word::of(case.expected) == word {
            compare_one(to, case, number, &mut tally, lent, text)?;
        }
    }
    Ok(tally)
}

// Runs every case, and prints the sums.
pub(crate) fn compare_all<W: Write, E: Eprint>(
    to: &mut Printer<W, E>,
    cases: Cases,
    lent: &mut Lent,
    text: &mut Text,
) -> Result<(), NotWhole> {
    let mut sum = Tally::default();
    for word in Word::ALL {
        let tally = compare_word(to, cases, word, lent, text)?;
        to.print(word.name())?;
        tally.print(to)?;
        sum = sum + tally;
    }
    sum.print(to)
}
