// The stored cases. A case's head has 84 bytes: expected number, expected offset, length of the prefix, length of the block, repeats of the
// block, length of the suffix, kind and number to look up, expected offset of that (4 bytes each), and a label of 48.
// The kind is 0 where nothing is looked up.
ghost use Rattle.std.specs.Prelude.{length};
ghost use Rattle.std.specs.Iterator.{at_most};

const LABEL: usize = 36;

const HEAD: usize = 84;

#[derive(Clone, Copy)]
pub(crate) struct Case<'a> {
    bytes: &'a [u8], // from the case's head on
    pub(crate) number: u32,
    pub(crate) offset: u32,
    prefix: u32,
    block: u32,
    repeats: u32,
    suffix: u32,
    pub(crate) kind: u16,
    pub(crate) item: u32,
    pub(crate) found: u32,
}

// The cases that stand in the bytes.
#[derive(Clone, Copy)]
pub(crate) struct Cases<'a>(pub(crate) &'a [u8]);

impl<'a> Iterator for Cases<'a> {
    type Item = Case<'a>;

    ghost remaining = { λ s. at_most (length s.0.now) };

    fn next(&mut self) -> Option<Case<'a>> {
        let bytes = self.0;
        if bytes.is_empty() {
            return None;
        }
        let case = Case::at(bytes);
        let size = HEAD + case.prefix as usize + case.block as usize + case.suffix as usize;
        self.0 = &bytes[size.min(bytes.len())..];
        Some(case)
    }
}

// Copies so many bytes to a place of the sheet, and gives where the copy ends, if they are there and fit.
fn put(bytes: &[u8], from: usize, size: u32, sheet: &mut [u8], to: usize) -> Option<usize> {
    if size == 0 {
        return Some(to);
    }
    let size = size as usize;
    if bytes.len() < from || bytes.len() - from < size {
        return None;
    }
    if sheet.len() < to || sheet.len() - to < size {
        return None;
    }
    let end = to + size;
    sheet[to..end].copy_from_slice(&bytes[from..from + size]);
    Some(end)
}

impl<'a> Case<'a> {
    // The case at the start of the bytes.
    fn at(bytes: &'a [u8]) -> Case<'a> {
        Case {
            bytes,
            number: fields::u32_at(bytes, 0),
            offset: fields::u32_at(bytes, 4),
            prefix: fields::u32_at(bytes, 8),
            block: fields::u32_at(bytes, 12),
            repeats: fields::u32_at(bytes, 16),
            suffix: fields::u32_at(bytes, 20),
            kind: fields::u16_at(bytes, 24),
            item: fields::u32_at(bytes, 28),
            found: fields::u32_at(bytes, 32),
        }
    }

    pub(crate) fn label(self) -> &'a [u8] {
        self.bytes.get(LABEL..HEAD).unwrap_or(b"")
    }

    // Builds the case's sheet, the block as often as it is repeated, and gives its end.
    pub(crate) fn build(self, sheet: &mut [u8]) -> Option<usize> {
        let block = HEAD + self.prefix as usize;
        let suffix = block + self.block as usize;
        let mut end = put(self.bytes, HEAD, self.prefix, sheet, 0)?;
        for _ in 0..self.repeats {
            end = put(self.bytes, block, self.block, sheet, end)?;
        }
        put(self.bytes, suffix, self.suffix, sheet, end)
    }
}
