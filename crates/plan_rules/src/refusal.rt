// Why a call is refused, with document 01's number, offset and length of each case.
ghost use Rattle.std.specs.Prelude.{◌≡◌};
ghost use Rattle.plan_rules.specs.declared.refusal.PlanError.TheVariants.{Sheet, Query};
ghost use Rattle.plan_rules.specs.Questions.{query_number};
ghost use Rattle.plan_rules.specs.Outcome.{error_number, error_offset, error_length};

use check_sheet::SheetError;

// The question of 8 to 11 that has the first no.
#[derive(Clone, Copy, Debug, PartialEq, Eq)]
pub enum QueryError {
    View,
    Zoom,
    Depth,
    Scratch,
}

impl QueryError {
    pub fn number(self) -> u32
        ensures { result ≡ query_number self }
    {
        match self {
            QueryError::View => 8,
            QueryError::Zoom => 9,
            QueryError::Depth => 10,
            QueryError::Scratch => 11,
        }
    }
}

// A sheet or a query that is refused, a tape of so many bytes that does not fit, or a finder that is not the sheet's.
#[derive(Clone, Copy, Debug, PartialEq, Eq)]
pub enum PlanError {
    Sheet(SheetError),
    Query(QueryError),
    NoRoom(usize),
    WrongFinder,
}

impl From<SheetError> for PlanError {
    ghost from_gives = { λ error refusal. refusal ≡ Sheet error };

    fn from(error: SheetError) -> PlanError {
        PlanError::Sheet(error)
    }
}

impl From<QueryError> for PlanError {
    ghost from_gives = { λ error refusal. refusal ≡ Query error };

    fn from(error: QueryError) -> PlanError {
        PlanError::Query(error)
    }
}

impl PlanError {
    pub fn number(self) -> u32
        ensures { result ≡ error_number self }
    {
        match self {
            PlanError::Sheet(error) => error.number(),
            PlanError::Query(error) => error.number(),
            PlanError::NoRoom(_) => 12,
            PlanError::WrongFinder => 13,
        }
    }

    // Of the record at fault, or 0.
    pub fn offset(self) -> usize
        ensures { result ≡ error_offset self }
    {
        match self {
            PlanError::Sheet(error) => error.offset(),
            _ => 0,
        }
    }

    // Of the tape that does not fit, or 0.
    pub fn length(self) -> usize
        ensures { result ≡ error_length self }
    {
        match self {
            PlanError::NoRoom(length) => length,
            _ => 0,
        }
    }
}
