// Answers that no stored case has: to too many cells, to inputs that were not read to their end, and where too little is lent.

use crate::cases::Case;
use crate::texts::{Text, print_input, print_unread};
use plan_answer::Lent;
use std::io::{Eprint, Write};
use streams::{NotWhole, Printer, ReadError};

// The length of a query without hidden layers, and of a cell without members.
const QUERY: usize = 54;

const CELL: usize = 56;

// One more than a sheet may have.
const CELLS: usize = 4097;

// Puts a query and 4,097 empty cells into a buffer of zeros. Gives their end.
fn put_many_cells(room: &mut [u8]) -> usize {
    fields::put_u32(room, 0, QUERY as u32);
    fields::put_u16(room, 4, 20);
    for cell in 0..CELLS {
        let at = QUERY + CELL * cell;
        fields::put_u32(room, at, CELL as u32);
        fields::put_u16(room, at + 4, 5);
    }
    QUERY + CELL * CELLS
}

fn print_many_cells<W: Write, E: Eprint>(
    to: &mut Printer<W, E>,
    room: &mut [u8],
    lent: &mut Lent,
    text: &mut Text,
) -> Result<(), NotWhole> {
    let end = put_many_cells(room);
    if room.len() < end {
        return Ok(());
    }
    print_input(to, b"4,097 cells: ", &room[..end], lent, text)
}

// The same cells behind a query with a hidden layer, without room for it.
fn print_hidden_layer<W: Write, E: Eprint>(
    to: &mut Printer<W, E>,
    room: &mut [u8],
    lent: &mut Lent,
    text: &mut Text,
) -> Result<(), NotWhole> {
    fields::put_u32(room, 0, 58);
    let hidden = std::mem::take(&mut lent.hidden);
    print_input(to, b"no room for hidden layers: ", room, lent, text)?;
    lent.hidden = hidden;
    Ok(())
}

// Inputs that are refused, or too long, for their size.
pub(crate) fn print_long<W: Write, E: Eprint>(
    to: &mut Printer<W, E>,
    room: &mut [u8],
    lent: &mut Lent,
    text: &mut Text,
) -> Result<(), NotWhole> {
    print_many_cells(to, room, lent, text)?;
    print_hidden_layer(to, room, lent, text)
}

// Inputs that were not read to their end.
pub(crate) fn print_unreads<W: Write, E: Eprint>(
    to: &mut Printer<W, E>,
    buffer: &[u8],
    lent: &mut Lent,
    text: &mut Text,
) -> Result<(), NotWhole> {
    let (long, failed) = (ReadError::TooLong, ReadError::Unreadable);
    print_unread(to, b"no room for the input: ", buffer, long, lent, text)?;
    print_unread(to, b"a read that failed: ", buffer, failed, lent, text)
}

// A case that is a plan, answered where no tape is lent.
pub(crate) fn print_untaped<W: Write, E: Eprint>(
    to: &mut Printer<W, E>,
    case: Case,
    lent: &mut Lent,
    text: &mut Text,
) -> Result<(), NotWhole> {
    let tape = std::mem::take(&mut lent.tape);
    print_input(to, b"no room for the tape: ", case.input, lent, text)?;
    lent.tape = tape;
    Ok(())
}
