// Whether a sheet can be planned: questions 1 to 7 of document 01. Nothing is written.

#![tactic(auto)]

ghost use Rattle.std.specs.Prelude.{◌≡◌};
ghost use Rattle.check_sheet.specs.Check.{error_number, error_offset, verdict, verdict_of};

use check_record::RecordError;
use records::format::MAX_CELLS;
use walk::MAX_SHEET_BYTES;

mod links;
mod scan;

// How many records there are of each kind.
#[derive(Clone, Copy, Debug, Default, PartialEq, Eq)]
pub struct Counts {
    pub geometries: u32,
    pub texts: u32,
    pub nodes: u32,
    pub references: u32,
    pub cells: u32,
}

// Why a sheet is refused, with the offset of the record at fault.
#[derive(Clone, Copy, Debug, PartialEq, Eq)]
pub enum SheetError {
    TooLong,
    Record(RecordError, usize),
    NamesMissing(usize),
    TooManyCells,
}

impl SheetError {
    // Document 01's number of the refusal.
    pub fn number(self) -> u32
        ensures { result ≡ error_number self }
    {
        match self {
            SheetError::TooLong => 1,
            SheetError::Record(error, _) => error.number(),
            SheetError::NamesMissing(_) => 6,
            SheetError::TooManyCells => 7,
        }
    }

    // Its offset, 0 where no record is at fault.
    pub fn offset(self) -> usize
        ensures { result ≡ error_offset self }
    {
        match self {
            SheetError::Record(_, at) | SheetError::NamesMissing(at) => at,
            SheetError::TooLong | SheetError::TooManyCells => 0,
        }
    }
}

// The counts of a sound sheet, or the first no. Any bytes get an answer, in at most two passes over them.
pub fn check_sheet(s: &[u8]) -> Result<Counts, SheetError>
    ensures { verdict result ≡ verdict_of s.now }
{
    if MAX_SHEET_BYTES < s.len() {
        return Err(SheetError::TooLong);
    }
    let counts = scan::scan(s)?;
    if MAX_CELLS < counts.cells {
        return Err(SheetError::TooManyCells);
    }
    links::links(s, counts)
}
