// The first pass: questions 2 to 5, record by record, and the counts.
ghost use Rattle.std.specs.Prelude.{◌≡◌, ◌≤◌, ◌<◌, length, Ok};
ghost use Rattle.walk.specs.Offsets.{max_sheet_bytes, offsets};
ghost use Rattle.check_sheet.specs.Count.{counts_of, tallied, counted, AtMost};
ghost use Rattle.check_sheet.specs.Check.{first_no};

use crate::{Counts, SheetError};

// n, and one more where a record is of the kind k.
#[tactic(auto, using(check_record::proofs::Tests::tests), unfolding(crate::specs::Count::tallied))]
pub fn tally(n: u32, kind: u16, k: u16) -> u32
    requires { n < 4294967295 }
    ensures { result ≡ tallied n kind k }
{
    if kind == k { n + 1 } else { n }
}

// The counts, with a record of a kind.
#[tactic(auto, unfolding(crate::specs::Count::counted))]
pub fn count(kind: u16, c: Counts) -> Counts
    requires { AtMost c max_sheet_bytes }
    ensures { result ≡ counted kind c }
{
    Counts {
        geometries: tally(c.geometries, kind, 1),
        texts: tally(c.texts, kind, 2),
        nodes: tally(c.nodes, kind, 3),
        references: tally(c.references, kind, 4),
        cells: tally(c.cells, kind, 5),
    }
}

// The first record with a no, or the counts.
pub fn scan(s: &[u8]) -> Result<Counts, SheetError>
    requires { length s.now ≤ max_sheet_bytes }
    ensures { result ≡ first_no s.now (offsets s.now) (Ok (counts_of s.now)) }
{
    let size = s.len() as u32;
    let mut at = 0u32;
    let mut counts = Counts::default();
    // Kept: `for head in walk::records(s)` tests a length before `check_record` does, and took 23 to 29 % longer on records of 26 bytes.
    while at < size {
        let index = at as usize;
        if let Err(error) = check_record::check_record(s, index) {
            return Err(SheetError::Record(error, index));
        }
        counts = count(walk::kind_within(s, at), counts);
        at = walk::next_within(s, at);
    }
    // Number by number: copied whole into an answer that may hold an error's byte, they are counted in bytes, and texts of 26 bytes took 34 % longer.
    Ok(Counts {
        geometries: counts.geometries,
        texts: counts.texts,
        nodes: counts.nodes,
        references: counts.references,
        cells: counts.cells,
    })
}
