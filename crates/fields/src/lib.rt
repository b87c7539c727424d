// Little-endian fields of a slice of bytes: u16, u32, u64 and f64, read at an offset and written at one.
// A function whose name ends in `_within` requires that the field lies wholly inside, and tests nothing.
// The others are total: a byte past the end is read as 0 and is not written.
// Kept: each width is built of halves. As instances of one reader and one writer of N bytes (`from_le_bytes`) `check_sheet` took up to 21 % longer, `walk::find` 4 to 19 %.

#![tactic(auto)]

ghost use Rattle.std.specs.Prelude.{◌≡◌, ◌+◌, ◌≤◌, length};
ghost use Rattle.std.proofs.lemmas.List.Edits.{sets};
ghost use Rattle.fields.specs.Field.{uint_at, uint_bytes, f64_at, f64_bytes};

// ---- the head of a record: "whole length (4 bytes), kind (2), body"

// Where the kind stands, and where the body begins. The readers of records prove these equal to `Head`.
pub const KIND: usize = 4;

pub const HEAD: usize = KIND + 2;

// ---- reading

pub fn byte_at(s: &[u8], at: usize) -> u8
    ensures { result ≡ uint_at 1 s.now at }
{
    if at < s.len() {
        return s[at];
    }
    0
}

pub fn u16_within(s: &[u8], at: usize) -> u16
    requires { at + 2 ≤ length s.now }
    ensures { result ≡ uint_at 2 s.now at }
{
    let low = s[at] as u16;
    let high = s[at + 1] as u16;
    low + 0x100 * high
}

pub fn u16_at(s: &[u8], at: usize) -> u16
    ensures { result ≡ uint_at 2 s.now at }
{
    if at >= s.len() {
        return 0;
    }
    if 2 <= s.len() - at {
        return u16_within(s, at);
    }
    let low = byte_at(s, at) as u16;
    let high = byte_at(s, at + 1) as u16;
    low + 0x100 * high
}

pub fn u32_within(s: &[u8], at: usize) -> u32
    requires { at + 4 ≤ length s.now }
    ensures { result ≡ uint_at 4 s.now at }
{
    let low = u16_within(s, at) as u32;
    let high = u16_within(s, at + 2) as u32;
    low + 0x1_0000 * high
}

pub fn u32_at(s: &[u8], at: usize) -> u32
    ensures { result ≡ uint_at 4 s.now at }
{
    if at >= s.len() {
        return 0;
    }
    if 4 <= s.len() - at {
        return u32_within(s, at);
    }
    let low = u16_at(s, at) as u32;
    let high = u16_at(s, at + 2) as u32;
    low + 0x1_0000 * high
}

pub fn u64_within(s: &[u8], at: usize) -> u64
    requires { at + 8 ≤ length s.now }
    ensures { result ≡ uint_at 8 s.now at }
{
    let low = u32_within(s, at) as u64;
    let high = u32_within(s, at + 4) as u64;
    low + 0x1_0000_0000 * high
}

pub fn u64_at(s: &[u8], at: usize) -> u64
    ensures { result ≡ uint_at 8 s.now at }
{
    if at >= s.len() {
        return 0;
    }
    if 8 <= s.len() - at {
        return u64_within(s, at);
    }
    let low = u32_at(s, at) as u64;
    let high = u32_at(s, at + 4) as u64;
    low + 0x1_0000_0000 * high
}

// Every NaN pattern is read as the one NaN.
pub fn f64_within(s: &[u8], at: usize) -> f64
    requires { at + 8 ≤ length s.now }
    ensures { result ≡ f64_at s.now at }
{
    floats::pattern::f64_from_bits(u64_within(s, at))
}

pub fn f64_at(s: &[u8], at: usize) -> f64
    ensures { result ≡ f64_at s.now at }
{
    floats::pattern::f64_from_bits(u64_at(s, at))
}

// ---- writing

fn put_byte(d: &mut [u8], at: usize, n: u8)
    ensures { d.new ≡ sets d.old at (uint_bytes 1 n) }
{
    if at < d.len() {
        d[at] = n;
    }
}

fn put_u16_within(d: &mut [u8], at: usize, n: u16)
    requires { at + 2 ≤ length d.old }
    ensures { d.new ≡ sets d.old at (uint_bytes 2 n) }
{
    d[at] = (n % 0x100) as u8;
    d[at + 1] = (n / 0x100) as u8;
}

pub fn put_u16(d: &mut [u8], at: usize, n: u16)
    ensures { d.new ≡ sets d.old at (uint_bytes 2 n) }
{
    if at >= d.len() {
        return;
    }
    if 2 <= d.len() - at {
        put_u16_within(d, at, n);
        return;
    }
    put_byte(d, at, (n % 0x100) as u8);
    put_byte(d, at + 1, (n / 0x100) as u8);
}

fn put_u32_within(d: &mut [u8], at: usize, n: u32)
    requires { at + 4 ≤ length d.old }
    ensures { d.new ≡ sets d.old at (uint_bytes 4 n) }
{
    put_u16_within(d, at, (n % 0x1_0000) as u16);
    put_u16_within(d, at + 2, (n / 0x1_0000) as u16);
}

pub fn put_u32(d: &mut [u8], at: usize, n: u32)
    ensures { d.new ≡ sets d.old at (uint_bytes 4 n) }
{
    if at >= d.len() {
        return;
    }
    if 4 <= d.len() - at {
        put_u32_within(d, at, n);
        return;
    }
    put_u16(d, at, (n % 0x1_0000) as u16);
    put_u16(d, at + 2, (n / 0x1_0000) as u16);
}

fn put_u64_within(d: &mut [u8], at: usize, n: u64)
    requires { at + 8 ≤ length d.old }
    ensures { d.new ≡ sets d.old at (uint_bytes 8 n) }
{
    put_u32_within(d, at, (n % 0x1_0000_0000) as u32);
    put_u32_within(d, at + 4, (n / 0x1_0000_0000) as u32);
}

pub fn put_u64(d: &mut [u8], at: usize, n: u64)
    ensures { d.new ≡ sets d.old at (uint_bytes 8 n) }
{
    if at >= d.len() {
        return;
    }
    if 8 <= d.len() - at {
        put_u64_within(d, at, n);
        return;
    }
    put_u32(d, at, (n % 0x1_0000_0000) as u32);
    put_u32(d, at + 4, (n / 0x1_0000_0000) as u32);
}

// Every NaN is written as 7FF8000000000000 (hexadecimal).
pub fn put_f64(d: &mut [u8], at: usize, x: f64)
    ensures { d.new ≡ sets d.old at (f64_bytes x) }
{
    put_u64(d, at, floats::pattern::f64_to_bits(x));
}
