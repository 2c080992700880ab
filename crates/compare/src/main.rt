// Reads a file of a comparison from standard input and prints a line for each of its records: the counts or the refusal of a table.
#![tactic(auto)]

use machine::refusal::Refusal;
use machine::table::read_table;
use machine::which::Which;
use records::file::{File, FileFault, Part};
use records::line::Line;
use records::reading;
use std::io;
use std::io::Read;

// Standard input to its end, or until it is longer than any file.
fn input(rt: &HostRuntime) -> io::Result<Vec<u8>> {
    let mut bytes = Vec::new(rt.alloc());
    let limit = reading::LONGEST as u64 + 1;
    rt.stdin().take(limit).read_to_end(&mut bytes)?;
    Ok(bytes)
}

// The counts of a table, or its refusal.
fn print_table(rt: &HostRuntime, which: Which, words: &[u32]) -> io::Result<()> {
    let number = which.number();
    match read_table(words) {
        Ok(head) => {
            let (states, registers, inputs) = (head.states, head.registers, head.inputs);
            println!(rt; "table {number}: {states} states, {registers} registers, {inputs} inputs")
        }
        Err(fault) => rt.println(Line::Refused {
            number: fault.number(),
            machine: number,
            place: u32::try_from(fault.place()).unwrap_or(u32::MAX),
        }),
    }
}

// A line for each record.
fn print_records(rt: &HostRuntime, file: &File) -> io::Result<()> {
    let (values, shared) = (file.values, file.shared);
    println!(rt; "start: {values}, {shared} shared")?;
    print_table(rt, Which::First, &file.first)?;
    print_table(rt, Which::Second, &file.second)?;
    for part in &file.parts {
        let (name, words) = match part {
            Part::Pair(words) => ("pair", words),
            Part::Claim(words) => ("claim", words),
        };
        let n = words.len();
        println!(rt; "{name}: {n} words")?;
    }
    Ok(())
}

fn run(rt: &HostRuntime) -> anyhow::Result<()> {
    let bytes = input(rt)?;
    match reading::read(rt.alloc(), &bytes) {
        Ok(file) => print_records(rt, &file)?,
        Err(FileFault::BadFile) => rt.println(Line::BadFile)?,
        Err(fault) => return Err(fault.into()),
    }
    Ok(())
}

fn main(rt: HostRuntime) -> anyhow::Result<()> {
    run(&rt)
}
