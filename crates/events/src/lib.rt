// What happens in a plan: one function for each event that it counts or lists, and `add_load`, which lists a proxy or drops it.
// Every function is total. What it leaves of the plan and of the output is what the rules' definition of the same name says.

#![tactic(auto)]

mod counted; // what an event adds to the plan, and its record on the tape
mod load; // proxies

pub use counted::{
    count_culled_batch, count_culled_reference, count_detail_cell, count_skipped_batch,
    count_skipped_member, list_batch, list_point, list_text, list_totals,
};
pub use load::{add_load, add_load_if_boxed, collapse_reason};
