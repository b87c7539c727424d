// Opening a sheet: questions 1 to 7, then number 13 where the lent list is short, and else the sheet's finder in the list.

#![tactic(auto)]

ghost use Rattle.std.specs.Prelude.{◌≡◌, ◌++◌, ◌≤◌, length, drop};
ghost use Rattle.check_sheet.specs.Count.{counts_of};
ghost use Rattle.check_sheet.specs.Valid.{Valid};
ghost use Rattle.finder.specs.Finder.{finder_of};
ghost use Rattle.open_sheet.specs.declared.OpenError.TheVariants.{Sheet};
ghost use Rattle.open_sheet.specs.Opening.{error_number, error_offset, error_places, opening, opening_of};

use check_sheet::{Counts, SheetError};
use look_up::{count_for, start_for};

// Why a sheet was not opened: it is refused, or the list is short of so many places.
#[derive(Clone, Copy, Debug, PartialEq, Eq)]
pub enum OpenError {
    Sheet(SheetError),
    NoRoom(usize),
}

impl From<SheetError> for OpenError {
    ghost from_gives = { λ error opened. opened ≡ Sheet error };

    fn from(error: SheetError) -> OpenError {
        OpenError::Sheet(error)
    }
}

impl OpenError {
    // The papers' number of the refusal.
    pub fn number(self) -> u32
        ensures { result ≡ error_number self }
    {
        match self {
            OpenError::Sheet(error) => error.number(),
            OpenError::NoRoom(_) => 13,
        }
    }

    // Its offset, 0 where no record is at fault.
    pub fn offset(self) -> usize
        ensures { result ≡ error_offset self }
    {
        match self {
            OpenError::Sheet(error) => error.offset(),
            OpenError::NoRoom(_) => 0,
        }
    }

    // How many places the sheet takes, known where the list is short.
    pub fn places(self) -> usize
        ensures { result ≡ error_places self }
    {
        match self {
            OpenError::Sheet(_) => 0,
            OpenError::NoRoom(places) => places,
        }
    }
}

// Writes the offset of every record into its place, in one pass over the records.
fn place_records(sheet: &[u8], finder: &mut [u32], c: Counts)
    requires valid { Valid sheet.now }
    requires c_value { c ≡ counts_of sheet.now }
    requires sheet_in_bounds { length (finder_of sheet.now) ≤ length finder.old }
    ensures { finder.new ≡ finder_of sheet.now ++ drop (length (finder_of sheet.now)) finder.old }
{
    let mut places = finder::starts(c);
    let size = sheet.len() as u32;
    let mut at = 0u32;
    // Kept: `for head in walk::records(sheet)` was proved; it tests each length again, and took 4 to 9 % longer on records of 26 bytes.
    while at < size {
        let kind = walk::kind_within(sheet, at) as usize;
        let place = places[kind];
        finder[place] = at;
        places[kind] = place + 1;
        at = walk::next_within(sheet, at);
    }
}

// How many places the sheet takes, if it is opened. Any bytes and any list get an answer.
// Refusals 1 to 7 leave the list as lent, and number 13 zeroes it whole.
pub fn open_sheet(sheet: &[u8], finder: &mut [u32]) -> Result<usize, OpenError>
    ensures { opening result finder.new ≡ opening_of sheet.now finder.old }
{
    let counts = check_sheet::check_sheet(sheet)?;
    let places = start_for(counts, 5) + count_for(counts, 5) as usize;
    if finder.len() < places {
        finder.fill(0);
        return Err(OpenError::NoRoom(places));
    }
    place_records(sheet, finder, counts);
    Ok(places)
}
