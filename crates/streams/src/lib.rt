// An input read to its end, and an output written whole, over any reader and any writer.
// Which bytes the system reads or writes no contract can say. Of a reader and a writer that do say which bytes they have it is proved
// that a whole input is all that the reader had, that one which is too long fills the buffer with the first of it, and that `print`
// answers `Ok` only where the writer got all the bytes. Of any it is proved what an answer means, so that a call that failed or was
// interrupted is not the end; that only the end makes an input whole (`input_of`), and a full buffer never does; and that a printer
// remembers a write that failed, and writes nothing behind it.

#![tactic(auto)]

mod input; // an input, read to its end
mod moved; // what an answer of the system means
mod output; // an output, written whole
mod reason; // why a call failed, on standard error

pub use input::{ReadError, read_to_end};
pub use output::{NotWhole, Printer};
pub use reason::fail;
