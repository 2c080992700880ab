// The rows of a table read back, part by part: the counter, its beginning, and what is missing.
use crate::cases::judge;
use machine::view::{Part, row_of};
use samples::{COUNTER, test_name};
use std::io;

// A part: what it does, and how many words its expressions have.
fn tell(rt: &HostRuntime, part: Part<'_>) -> io::Result<()> {
    match part {
        Part::Test { test, left, right } => {
            let name = test_name(test);
            let (l, r) = (left.len(), right.len());
            print!(rt; " | {name} {l} {r}")
        }
        Part::Store { register, value } => {
            let n = value.len();
            print!(rt; " | store {register} of {n}")
        }
        Part::Emit { port, value } => {
            let n = value.len();
            print!(rt; " | emit {port} of {n}")
        }
        Part::Goto { state } => print!(rt; " | go to {state}"),
    }
}

// A row is no iterator: its parts are read off it.
fn show(rt: &HostRuntime, words: &[u32], state: u32) -> io::Result<()> {
    let Some(mut row) = row_of(words, state) else {
        return println!(rt; "row {state}: none");
    };
    let (start, count) = (row.start, row.words.len());
    print!(rt; "row {state}: at {start}, {count} words")?;
    while let Some(part) = row.next_part() {
        tell(rt, part)?;
    }
    println!(rt; "")
}

// Rows by the number of the state, one more than there are.
pub fn counter(rt: &HostRuntime) -> io::Result<()> {
    judge(rt, "the counter", &COUNTER)?;
    for state in 0..3 {
        show(rt, &COUNTER, state)?;
    }
    judge(rt, "the counter without its last word", &COUNTER[0..32])?;
    show(rt, &COUNTER[0..32], 0)?;
    show(rt, &COUNTER[0..32], 1)?;
    show(rt, &[], 0)
}
