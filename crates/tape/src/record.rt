// What a record of the tape is, and the writer of one: "whole length (4 bytes), kind (2), body".
ghost use Rattle.std.specs.Prelude.{◌≡◌, ℕ, List, ◌+◌, ◌≤◌, leb, length};
ghost use Rattle.std.proofs.lemmas.List.Edits.{sets};
ghost use Rattle.fields.specs.Field.{Field, widths, record_bytes};
ghost use Rattle.plan_rules.specs.Event.{header};
ghost use Rattle.plan_rules.specs.Tape.{Written};

pub trait Record {
    // The fields of the body.
    ghost body: { Self → List Field };

    ghost KIND: { ℕ };

    ghost SIZE: { ℕ };

    const KIND: u16;

    // How many bytes the whole record takes.
    const SIZE: u32;

    // Writes the body, field by field.
    fn put_body(&self, out: &mut [u8], at: usize)
        requires { at + widths (body self.now) ≤ length out.old }
        ensures { out.new ≡ sets out.old at (record_bytes (body self.now)) };

    ghost sized: { (r : Self) → widths (header KIND (body r)) ≡ SIZE };
}

// Whether `size` bytes from `at` on lie within `length`. No sum can wrap.
fn has_room(length: usize, at: u64, size: u32) -> bool
    ensures { result ≡ leb (at + size) length }
{
    (length as u64)
        .checked_sub(at)
        .is_some_and(|room| size as u64 <= room)
}

pub fn write<R: Record>(out: &mut [u8], at: u64, listed: &R) -> u64
    ensures { Written (header R.KIND (R.body listed.now)) out.old at out.new result }
{
    if has_room(out.len(), at, R::SIZE) {
        put(out, at as usize, listed);
    }
    limits::saturating_add(at, R::SIZE as u64)
}

fn put<R: Record>(out: &mut [u8], at: usize, listed: &R)
    requires { at + R.SIZE ≤ length out.old }
    ensures { out.new ≡ sets out.old at (record_bytes (header R.KIND (R.body listed.now))) }
{
    fields::put_u32(out, at, R::SIZE);
    fields::put_u16(out, at + fields::KIND, R::KIND);
    listed.put_body(out, at + fields::HEAD);
}
