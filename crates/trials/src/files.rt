// Files that the layout allows, and files of every kind that it does not.
use records::reading;
use std::io;

fn print_file(rt: &HostRuntime, name: &str, bytes: &[u8]) -> io::Result<()> {
    match reading::read(rt.alloc(), bytes) {
        Ok(file) => {
            let first = file.first.len();
            let second = file.second.len();
            let parts = file.parts.len();
            println!(rt; "{name}: tables of {first} and {second} words, {parts} parts")
        }
        Err(fault) => println!(rt; "{name}: {fault}"),
    }
}

fn print_words(rt: &HostRuntime, name: &str, words: &[u32]) -> io::Result<()> {
    let mut bytes = vec![in rt.alloc(); 0; 4 * words.len()]?;
    let (chunks, _) = bytes.as_chunks_mut::<4>();
    for (chunk, word) in chunks.iter_mut().zip(words) {
        *chunk = word.to_be_bytes();
    }
    print_file(rt, name, &bytes)
}

// A start, two tables and a claim of so many words.
fn print_long(rt: &HostRuntime, name: &str, claim: u32) -> io::Result<()> {
    let mut words = vec![in rt.alloc(); 0xf0000000, 0xf1000000, 0xf2000000, 0xf4000000 | claim]?;
    words.resize(4 + claim as usize, 0)?;
    print_words(rt, name, &words)
}

// Files that the layout allows.
const GOOD: [(&str, &[u32]); 3] = [
    ("empty tables", &[0xf0000000, 0xf1000000, 0xf2000000]),
    ("over bytes", &[0xf000ff01, 0xf1000001, 7, 0xf2000000]),
    (
        "parts",
        &[
            0xf0000000, 0xf1000000, 0xf2000000, 0xf4000001, 9, 0xf3000000, 0xf4000000,
        ],
    ),
];

// Files that it does not allow.
const BAD: [(&str, &[u32]); 14] = [
    ("no word", &[]),
    ("start alone", &[0xf0000000]),
    ("one table", &[0xf0000000, 0xf1000000]),
    ("no start", &[0xf1000000, 0xf2000000]),
    ("tables exchanged", &[0xf0000000, 0xf2000000, 0xf1000000]),
    (
        "second start",
        &[0xf0000000, 0xf1000000, 0xf2000000, 0xf0000000],
    ),
    (
        "third table",
        &[0xf0000000, 0xf1000000, 0xf2000000, 0xf1000000],
    ),
    (
        "unknown type",
        &[0xf0000000, 0xf1000000, 0xf2000000, 0xf5000000],
    ),
    (
        "unknown kind",
        &[0xf0000000, 0xf1000000, 0xf2000000, 0xe3000000],
    ),
    ("unknown domain", &[0xf0000002, 0xf1000000, 0xf2000000]),
    (
        "unused bit in the start",
        &[0xf0010000, 0xf1000000, 0xf2000000],
    ),
    (
        "unused bit in a record",
        &[0xf0000000, 0xf1000000, 0xf2000000, 0xf3010000],
    ),
    (
        "table past the end",
        &[0xf0000000, 0xf1000003, 0xf2000000, 1],
    ),
    (
        "claim past the end",
        &[0xf0000000, 0xf1000000, 0xf2000000, 0xf4000001],
    ),
];

fn print_all(rt: &HostRuntime, files: &[(&str, &[u32])]) -> io::Result<()> {
    for (name, words) in files {
        print_words(rt, name, words)?;
    }
    Ok(())
}

pub fn run(rt: &HostRuntime) -> anyhow::Result<()> {
    print_all(rt, &GOOD)?;
    print_long(rt, "16384 words", 16380)?;
    print_all(rt, &BAD)?;
    print_file(
        rt,
        "length of 13 bytes",
        &[0xf0, 0, 0, 0, 0xf1, 0, 0, 0, 0xf2, 0, 0, 0, 0],
    )?;
    print_long(rt, "16385 words", 16381)?;
    Ok(())
}
