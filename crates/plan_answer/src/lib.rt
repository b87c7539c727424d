// What the program `plan` answers to an input, and the text of that answer.

#![tactic(auto)]

mod no_plan; // why there is no plan
mod lent; // what a plan is lent
mod opened; // a plan with a finder that is opened for it
mod input; // the answer to an input
mod part; // the text of an answer, a part at a time
mod print; // the text of an answer, printed

pub use input::{answer, answer_input};
pub use lent::Lent;
pub use no_plan::NoPlan;
pub use part::{put_part, text_end};
pub use print::print_answer;
