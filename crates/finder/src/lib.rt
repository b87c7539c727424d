// The finder of a sheet: the offset of every record, by kind and then by number, and whether a lent list is the sheet's.

#![tactic(auto)]

ghost use Rattle.std.specs.Prelude.{◌≡◌};
ghost use Rattle.check_sheet.specs.Count.{counts_of};
ghost use Rattle.check_sheet.specs.Valid.{Valid};
ghost use Rattle.finder.specs.Finder.{belongs, starts_of};

use check_sheet::Counts;
use look_up::start_for;

// The place of the first record of each kind, at the kind's number. No record has kind 0.
pub fn starts(c: Counts) -> [usize; 6]
    ensures { result ≡ starts_of c }
{
    [
        0,
        start_for(c, 1),
        start_for(c, 2),
        start_for(c, 3),
        start_for(c, 4),
        start_for(c, 5),
    ]
}

// Whether the first places of the list are the sheet's finder, in one pass over the records.
pub fn belongs(sheet: &[u8], finder: &[u32], c: Counts) -> bool
    requires valid { Valid sheet.now }
    requires c_value { c ≡ counts_of sheet.now }
    ensures { result ≡ belongs finder.now sheet.now }
{
    let mut places = starts(c);
    let size = sheet.len() as u32;
    let mut at = 0u32;
    // Kept: `for head in walk::records(sheet)` was proved; it tests each length again, and took 14 to 16 % longer on records of 26 bytes.
    while at < size {
        let kind = walk::kind_within(sheet, at) as usize;
        let place = places[kind];
        if finder.len() <= place {
            return false;
        }
        if finder[place] != at {
            return false;
        }
        places[kind] = place + 1;
        at = walk::next_within(sheet, at);
    }
    true
}
