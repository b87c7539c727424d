// The planner: `plan` asks document 01's questions in order, visits the sheet from its root, and leaves the tape in the lent output.
// `plan_with_finder` does the same with a list of the records' offsets beside the sheet, in which it looks them up.
// Every function is total: any bytes, any list, any query and any lent memory get an answer.

#![tactic(auto)]

mod finish; // the totals, and question 12
mod root; // the visit of the root
mod clean; // the visits on zeroed scratch
mod entry; // the entry points

pub use entry::{plan, plan_with_finder};
