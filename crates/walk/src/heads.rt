// The records of a sheet, one after the other. Offsets have 32 bits inside: a sheet has at most 16,777,216 bytes.
ghost use Rattle.std.specs.Prelude.{◌≤◌, length};
ghost use Rattle.walk.specs.Offsets.{max_sheet_bytes};

// Where a record is, and its kind.
#[derive(Clone, Copy)]
pub struct Head {
    pub at: usize,
    pub kind: u16,
}

// The records from an offset on.
#[derive(Drop)]
pub struct Records<'a> {
    pub(crate) sheet: &'a [u8],
    pub(crate) at: u32,
    ghost narrow: { length sheet.now ≤ max_sheet_bytes },
}
