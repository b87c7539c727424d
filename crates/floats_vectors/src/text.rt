// Words of hexadecimal digits in a text, each ended by one other byte.
ghost use Rattle.std.specs.Prelude.{◌-◌, ◌≤◌, length};

// The value of a hexadecimal digit in lower case.
fn digit(byte: u8) -> Option<u64> {
    match byte {
        b'0'..=b'9' => Some((byte - b'0') as u64),
        b'a'..=b'f' => Some((byte - b'a' + 10) as u64),
        _ => None,
    }
}

// The value of the first word, and the text behind it. Of more than 16 digits the last 16 count.
pub(crate) fn first_word(text: &[u8]) -> (u64, &[u8])
    ensures { length result.1.now ≤ length text.now - 1 }
{
    let mut value: u64 = 0;
    for (i, byte) in text.iter().enumerate() {
        match digit(*byte) {
            Some(d) => value = (value << 4) | d,
            None => return (value, &text[i + 1..]),
        }
    }
    (value, &[])
}

// The text behind the first line.
pub(crate) fn behind_line(text: &[u8]) -> &[u8]
    ensures { length result.now ≤ length text.now - 1 }
{
    match text.iter().position(|byte| *byte == b'\n') {
        Some(i) => &text[i + 1..],
        None => &[],
    }
}
