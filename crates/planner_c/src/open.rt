// `open_sheet::open_sheet`, by numbers.
ghost use Rattle.std.specs.Prelude.{◌≡◌};
ghost use Rattle.open_sheet.specs.Opening.{opening_of};
ghost use Rattle.planner_c.specs.Call.{opened};

// The number of the first no, with its offset, or 0; the sheet's number of places with 0 and with 13.
#[unsafe(no_mangle)]
pub extern "C" fn scene_open(
    sheet: &[u8],
    finder: &mut [u32],
    offset: &mut usize,
    places: &mut usize,
) -> u32
    ensures { opened result offset.exit places.exit finder.exit ≡ opening_of sheet.now finder.old }
{
    match open_sheet::open_sheet(sheet, finder) {
        Ok(count) => {
            *offset = 0;
            *places = count;
            0
        }
        Err(error) => {
            *offset = error.offset();
            *places = error.places();
            error.number()
        }
    }
}
