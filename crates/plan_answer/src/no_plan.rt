// Why there is no plan: what the one line that is printed instead says.
ghost use Rattle.std.specs.Prelude.{◌≡◌};
ghost use Rattle.plan_answer.specs.NoPlan.{without_query, without_input};

use plan_query::QueryError;
use streams::ReadError;

#[derive(Clone, Copy, Debug, PartialEq, Eq)]
pub enum NoPlan {
    Refused(u32, usize),
    NoQuery,
    TooLong,
    Unreadable,
}

impl From<QueryError> for NoPlan {
    ghost from_gives = { λ error why. why ≡ without_query error };

    fn from(error: QueryError) -> NoPlan {
        match error {
            QueryError::NoQuery => NoPlan::NoQuery,
            QueryError::TooLong => NoPlan::TooLong,
        }
    }
}

impl From<ReadError> for NoPlan {
    ghost from_gives = { λ error why. why ≡ without_input error };

    fn from(error: ReadError) -> NoPlan {
        match error {
            ReadError::TooLong => NoPlan::TooLong,
            ReadError::Unreadable => NoPlan::Unreadable,
        }
    }
}
