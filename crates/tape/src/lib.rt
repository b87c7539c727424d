// The tape: one writer for every kind of record, which writes the whole record or nothing, and answers the tape's new end.
// A record that does not fit leaves the output as it was; the tape's end grows all the same.

#![tactic(auto)]

mod record; // what a record is, and the writer
mod kinds; // the records: batches, texts, node points, proxies and the totals
mod numbers; // numbers of 8 bytes, one after the other

pub use kinds::{Batch, Point, Proxy, Text};
pub use record::{Record, write};
