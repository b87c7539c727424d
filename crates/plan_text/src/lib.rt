// The text of the program `plan`: the lines that it prints.
// Every function works on lent slices and makes no call of the system.

#![tactic(auto)]

mod number; // numbers in decimal and hexadecimal digits
mod piece; // the pieces of a line
mod line; // one line for each record of the tape, and for a refusal
mod lines; // the lines of a tape, as many as there is room for

pub use line::put_refused;
pub use lines::{Lines, put_lines};
pub use piece::put_word;
