// Each case answered and compared, a group of cases after the other.

use crate::cases::{Case, Cases};
use std::io::{Eprint, Write};
use std::ops::Add;
use streams::{NotWhole, Printer};

// The expected offset of a look-up that finds nothing.
const NOTHING: u32 = 0xFFFF_FFFF;

// The cases that are run together: those of an expected number, 0 to 7, and all look-ups.
#[derive(Clone, Copy)]
enum Group {
    Sound,
    Refused(u32),
    LookUps,
}

impl Group {
    const ALL: [Group; 9] = [
        Group::Sound,
        Group::Refused(1),
        Group::Refused(2),
        Group::Refused(3),
        Group::Refused(4),
        Group::Refused(5),
        Group::Refused(6),
        Group::Refused(7),
        Group::LookUps,
    ];

    fn has(self, case: Case) -> bool {
        match self {
            Group::Sound => case.number == 0,
            Group::Refused(number) => case.number == number,
            Group::LookUps => case.kind != 0,
        }
    }

    // Whether a sheet gets what the group asks for of the case.
    fn passes(self, sheet: &[u8], case: Case) -> bool {
        match self {
            Group::LookUps => finds(sheet, case.kind, case.item, case.found),
            _ => verdict_is(sheet, case.number, case.offset),
        }
    }

    fn print_name<W: Write, E: Eprint>(self, to: &mut Printer<W, E>) -> Result<(), NotWhole> {
        match self {
            Group::Sound => to.print(b"sound: "),
            Group::Refused(number) => {
                to.print(b"refusal ")?;
                to.print_number(number as u64)?;
                to.print(b": ")
            }
            Group::LookUps => to.print(b"look-ups: "),
        }
    }
}

// Whether a sheet gets the number and the offset.
fn verdict_is(sheet: &[u8], number: u32, offset: u32) -> bool {
    match check_sheet::check_sheet(sheet) {
        Ok(_) => number == 0 && offset == 0,
        Err(error) => error.number() == number && error.offset() == offset as usize,
    }
}

// Whether the look-up of a record finds it at the offset, or nothing where nothing is expected.
fn finds(sheet: &[u8], kind: u16, number: u32, offset: u32) -> bool {
    match walk::find(sheet, kind, number) {
        Some(at) => at == offset as usize,
        None => offset == NOTHING,
    }
}

// How many cases passed and failed.
// Kept: in each comparing program, since a crate of its own for two fields and a line is no plainer.
#[derive(Clone, Copy, Default)]
struct Tally {
    passed: u64,
    failed: u64,
}

impl Add for Tally {
    type Output = Tally;

    fn add(self, other: Tally) -> Tally {
        Tally {
            passed: self.passed.wrapping_add(other.passed),
            failed: self.failed.wrapping_add(other.failed),
        }
    }
}

impl Tally {
    // One case more.
    fn count(&mut self, passed: bool) {
        if passed {
            self.passed = self.passed.wrapping_add(1);
        } else {
            self.failed = self.failed.wrapping_add(1);
        }
    }

    fn print<W: Write, E: Eprint>(self, to: &mut Printer<W, E>) -> Result<(), NotWhole> {
        to.print_number(self.passed)?;
        to.print(b" passed, ")?;
        to.print_number(self.failed)?;
        to.print(b" failed\n")
    }
}

// Whether a case passes in a group. A sheet that fills the buffer does not: it may not be whole.
fn passes(case: Case, group: Group, sheet: &mut [u8]) -> bool {
    match case.build(sheet) {
        Some(end) if end < sheet.len() => group.passes(&sheet[..end], case),
        _ => false,
    }
}

fn print_wrong<W: Write, E: Eprint>(to: &mut Printer<W, E>, case: Case) -> Result<(), NotWhole> {
    to.print(b"wrong: ")?;
    to.print(case.label())?;
    to.print(b"\n")
}

// Runs the cases of a group, and names those that fail.
fn compare_group<W: Write, E: Eprint>(
    to: &mut Printer<W, E>,
    cases: Cases,
    group: Group,
    sheet: &mut [u8],
) -> Result<Tally, NotWhole> {
    let mut tally = Tally::default();
    for case in cases {
        if group.has(case) {
            let passed = passes(case, group, sheet);
            tally.count(passed);
            if !passed {
                print_wrong(to, case)?;
            }
        }
    }
    Ok(tally)
}

// Runs every case, and prints the sums.
pub(crate) fn compare_all<W: Write, E: Eprint>(
    to: &mut Printer<W, E>,
    cases: Cases,
    sheet: &mut [u8],
) -> Result<(), NotWhole> {
    let mut sum = Tally::default();
    for group in Group::ALL {
        let tally = compare_group(to, cases, group, sheet)?;
        group.print_name(to)?;
        tally.print(to)?;
        sum = sum + tally;
    }
    sum.print(to)
}
