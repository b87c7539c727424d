// Questions 1 to 7 for C and Rust to call, under the contract of `check_sheet`. `bench/sheet` measures it.

#![tactic(auto)]

ghost use Rattle.std.specs.Prelude.{◌≡◌};
ghost use Rattle.check_sheet.specs.Check.{verdict_of};

// The number of the first no, with its offset, or 0 and 0 for a sound sheet.
#[unsafe(no_mangle)]
pub extern "C" fn sheet_check(s: &[u8], offset: &mut usize) -> u32
    ensures value { result ≡ (verdict_of s.now).number }
    ensures offset_after { offset.new ≡ (verdict_of s.now).offset }
{
    match check_sheet::check_sheet(s) {
        Ok(_) => {
            *offset = 0;
            0
        }
        Err(error) => {
            *offset = error.offset();
            error.number()
        }
    }
}
