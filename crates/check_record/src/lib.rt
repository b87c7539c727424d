// Questions 2 to 5 of document 01, asked of the record at an offset of a sheet.

#![tactic(auto)]

ghost use Rattle.std.specs.Prelude.{◌≡◌};
ghost use Rattle.check_record.specs.Record.{number_of, refusal_of, record_refusal};

mod finite;
mod frame;
mod shape;
mod values;

// Why a record is refused: the question that has the first no.
#[derive(Clone, Copy, Debug, PartialEq, Eq)]
pub enum RecordError {
    Frame,
    Shape,
    Values,
    Floats,
}

impl RecordError {
    // Document 01's number of the refusal.
    pub fn number(self) -> u32
        ensures { result ≡ number_of self }
    {
        match self {
            RecordError::Frame => 2,
            RecordError::Shape => 3,
            RecordError::Values => 4,
            RecordError::Floats => 5,
        }
    }
}

// The first no, if there is one. Any offset of any bytes gets an answer.
#[tactic(auto, using(crate::proofs::RightRecords::frame_whole), unfolding(crate::specs::Record::check_record))]
pub fn check_record(s: &[u8], at: usize) -> Result<(), RecordError>
    ensures { refusal_of result ≡ record_refusal s.now at }
{
    if !frame::frame_ok(s, at) {
        return Err(RecordError::Frame);
    }
    if !shape::shape_ok(s, at) {
        return Err(RecordError::Shape);
    }
    if !values::values_ok(s, at) {
        return Err(RecordError::Values);
    }
    if !finite::floats_ok(s, at) {
        return Err(RecordError::Floats);
    }
    Ok(())
}
