// Replays vectors on the crates `floats`, `rounding` and `fused`: published ones, document 01's edge
// cases, and patterns whose answers the hardware gave. Each group is a file of data/, named with its
// origin in its first line. The program says for each group, and in all, how many cases passed and how
// many failed.

#![tactic(auto)]

mod cases; // a group of vectors, replayed
mod operations; // what the groups replay, on patterns
mod single; // an f32 as its bits
mod text; // words in a text

use cases::{Group, Tally};
use operations::{
    absolute, count, finite, finite_single, greatest, greatest_single, least, mul_add, narrow,
    pattern,
};
use std::fs;
use std::io::{Eprint, Write};
use std::rt::Files;
use streams::{NotWhole, Printer};

// Replays the file of a group, where it can be read whole. Where it cannot, standard error says why.
fn replay<F: Files, E: Eprint>(files: &F, errors: &E, group: &Group) -> Option<Tally> {
    let mut file = match fs::open(files, group.file) {
        Ok(file) => file,
        Err(error) => {
            streams::fail(errors, group.file, error);
            return None;
        }
    };
    let mut buffer = [0u8; 65536];
    let size = streams::read_to_end(&mut file, errors, &mut buffer).ok()?;
    Some(group.replay(&buffer[..size]))
}

fn print<W: Write, E: Eprint>(
    to: &mut Printer<W, E>,
    name: &str,
    tally: Tally,
) -> Result<(), NotWhole> {
    to.print(name.as_bytes())?;
    to.print(b": ")?;
    to.print_number(tally.passed)?;
    to.print(b" passed, ")?;
    to.print_number(tally.failed)?;
    to.print(b" failed\n")
}

// Replays each group, says what came of it under its name, and answers the sum. A file that cannot be read whole counts as one failed
// case. Every file is read, also where a write failed: the printer remembers that, and prints no more.
fn replay_all<F: Files, W: Write, E: Eprint>(
    files: &F,
    to: &mut Printer<W, E>,
    groups: &[Group],
) -> Tally {
    let mut sum = Tally::default();
    for group in groups {
        match replay(files, &to.errors, group) {
            Some(tally) => {
                let _ = print(to, group.name, tally);
                sum = sum + tally;
            }
            None => sum = sum + Tally::of(false),
        }
    }
    sum
}

fn main(rt: HostRuntime) {
    let groups = [
        Group::new("fused, published", "published-fused.txt", 3, mul_add),
        Group::new("fused, document 01", "document-fused.txt", 3, mul_add),
        Group::new("fused, hardware", "hardware-fused.txt", 3, mul_add),
        Group::new("f64 to f32, published", "published-narrow.txt", 1, narrow),
        Group::new("f64 to f32, hardware", "hardware-narrow.txt", 1, narrow),
        Group::new("u64 to f32, document 01", "document-count.txt", 1, count),
        Group::new("u64 to f32, hardware", "hardware-count.txt", 1, count),
        Group::new("f64 min", "least.txt", 2, least),
        Group::new("f64 max", "greatest.txt", 2, greatest),
        Group::new("f32 max", "greatest-f32.txt", 2, greatest_single),
        Group::new("f64 abs", "absolute.txt", 1, absolute),
        Group::new("f64 is finite", "finite.txt", 1, finite),
        Group::new("f32 is finite", "finite-f32.txt", 1, finite_single),
        Group::new("f64 pattern", "pattern.txt", 1, pattern),
    ];
    let mut to = Printer::new(rt.stdout(), rt.stderr());
    let sum = replay_all(&rt, &mut to, &groups);
    let _ = print(&mut to, "all", sum);
}
