// The look-up by number: the planner finds every record here, in a finder where one is lent and else by the walk.
// A finder is a list of offsets, by kind and then by number. Any list is answered; only the sheet's own gives the sheet's records.

#![tactic(auto)]

ghost use Rattle.std.specs.Prelude.{◌≡◌, ◌≤◌};
ghost use Rattle.look_up.specs.Places.{count_for, start_for};
ghost use Rattle.look_up.specs.Look.{look_in, look};

use check_sheet::Counts;

// How many records there are of a kind of 1 to 5.
// Kept: a kind is a u16 here and in `look_up`, which answer for each; an enum of the five would ask more of callers.
#[tactic(auto, unfolding(crate::specs::Places::count_for))]
pub fn count_for(c: Counts, kind: u16) -> u32
    ensures { result ≡ count_for c kind }
{
    match kind {
        1 => c.geometries,
        2 => c.texts,
        3 => c.nodes,
        4 => c.references,
        _ => c.cells,
    }
}

// The place of a kind's first record: behind all of the kinds before it. Four counts of 32 bits: no sum wraps.
#[tactic(auto, unfolding(crate::specs::Places::start_for))]
pub fn start_for(c: Counts, kind: u16) -> usize
    ensures value { result ≡ start_for c kind }
    ensures upper_bound { result ≤ 17179869180 }
{
    let texts = c.geometries as usize;
    let nodes = texts + c.texts as usize;
    let references = nodes + c.nodes as usize;
    let cells = references + c.references as usize;
    match kind {
        1 => 0,
        2 => texts,
        3 => nodes,
        4 => references,
        _ => cells,
    }
}

// The offset that the finder of a sheet with these counts has for the record of a kind with a number.
#[tactic(auto, unfolding(crate::specs::Look::look_in, crate::specs::Look::placed))]
fn look_in(finder: &[u32], c: Counts, kind: u16, number: u32) -> Option<usize>
    ensures { result ≡ look_in finder.now c kind number }
{
    if number >= count_for(c, kind) {
        return None;
    }
    let place = start_for(c, kind) + number as usize;
    let at = finder.get(place)?;
    Some(*at as usize)
}

// The offset of the record of a kind with a number: one function for the five kinds. An empty finder is none.
#[tactic(auto, unfolding(crate::specs::Look::look))]
pub fn look_up(sheet: &[u8], finder: &[u32], c: Counts, kind: u16, number: u32) -> Option<usize>
    ensures { result ≡ look sheet.now finder.now c kind number }
{
    if finder.is_empty() {
        return walk::find(sheet, kind, number);
    }
    look_in(finder, c, kind, number)
}
