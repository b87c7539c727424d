// The stored cases: length of the input, length of the text (4 bytes each), the input, the text.
ghost use Rattle.std.specs.Prelude.{length};
ghost use Rattle.std.specs.Iterator.{at_most};

const HEAD: usize = 8;

// An input and the text that the judge answers. What the stored bytes lack of them is left out.
#[derive(Clone, Copy)]
pub(crate) struct Case<'a> {
    pub(crate) input: &'a [u8],
    pub(crate) expected: &'a [u8],
}

// The cases that stand in the bytes.
#[derive(Clone, Copy)]
pub(crate) struct Cases<'a>(pub(crate) &'a [u8]);

impl<'a> Iterator for Cases<'a> {
    type Item = Case<'a>;

    ghost remaining = { λ s. at_most (length s.0.now) };

    fn next(&mut self) -> Option<Case<'a>> {
        let head = self.0;
        if head.is_empty() {
            return None;
        }
        let behind = &head[HEAD.min(head.len())..];
        let input = behind.len().min(fields::u32_at(head, 0) as usize);
        let (input, behind) = behind.split_at(input);
        let expected = behind.len().min(fields::u32_at(head, 4) as usize);
        let (expected, behind) = behind.split_at(expected);
        self.0 = behind;
        Some(Case { input, expected })
    }
}

// What an answer's text begins with, as far as its first two bytes tell.
#[derive(Clone, Copy, PartialEq, Eq)]
pub(crate) enum Word {
    Batch,
    Text,
    Point,
    Proxy,
    Totals,
    Refused,
    NoQuery,
    Other,
}

impl Word {
    pub(crate) const ALL: [Word; 8] = [
        Word::Batch,
        Word::Text,
        Word::Point,
        Word::Proxy,
        Word::Totals,
        Word::Refused,
        Word::NoQuery,
        Word::Other,
    ];

    pub(crate) fn of(text: &[u8]) -> Word {
        match text {
            [b'b', ..] => Word::Batch,
            [b't', b'e', ..] => Word::Text,
            [b't', ..] => Word::Totals,
            [b'p', b'o', ..] => Word::Point,
            [b'p', ..] => Word::Proxy,
            [b'r', ..] => Word::Refused,
            [b'n', ..] => Word::NoQuery,
            _ => Word::Other,
        }
    }

    pub(crate) fn name(self) -> &'static [u8] {
        match self {
            Word::Batch => b"batch: ",
            Word::Text => b"text: ",
            Word::Point => b"point: ",
            Word::Proxy => b"proxy: ",
            Word::Totals => b"totals: ",
            Word::Refused => b"refused: ",
            Word::NoQuery => b"no query: ",
            Word::Other => b"other: ",
        }
    }
}
