// Tables that are accepted or refused, one line each.
use machine::refusal::Refusal;
use machine::table::read_table;
use std::alloc::{AllocError, Global};
use std::{io, iter};

// One state; two states with two registers and one input.
// Words as the format has them.
const ONE: u32 = 0x00010000;

const TWO: u32 = 0x00020201;

const SAME: u32 = 0x60000000;

const ZERO: u32 = 0x10000000;

const SUM: u32 = 0x50000000;

const NEG: u32 = 0x50000003;

const STORE: u32 = 0x70000000;

const EMIT: u32 = 0x80000000;

const GO: u32 = 0x90000000;

// So many equal words.
#[derive(Clone, Copy)]
struct Run(usize, u32);

// What the reader says of a table.
pub fn judge(rt: &HostRuntime, name: &str, words: &[u32]) -> io::Result<()> {
    match read_table(words) {
        Ok(h) => {
            let (states, registers, inputs) = (h.states, h.registers, h.inputs);
            println!(rt; "{name}: accepted {states} {registers} {inputs}")
        }
        Err(fault) => {
            let (number, place) = (fault.number(), fault.place());
            println!(rt; "{name}: refused {number} at {place}")
        }
    }
}

fn judge_all(rt: &HostRuntime, tables: &[(&str, &[u32])]) -> io::Result<()> {
    for (name, words) in tables {
        judge(rt, name, words)?;
    }
    Ok(())
}

fn spelt(heap: Global, runs: &[Run]) -> Result<Vec<u32>, AllocError> {
    runs.iter()
        .flat_map(|r| iter::repeat_n(r.1, r.0))
        .collect(heap)
}

// The same of a table that is given by runs of equal words.
fn judge_runs(rt: &HostRuntime, name: &str, runs: &[Run]) -> io::Result<()> {
    let words = spelt(rt.alloc(), runs)?;
    judge(rt, name, &words)
}

pub fn heads(rt: &HostRuntime) -> io::Result<()> {
    judge(rt, "one state", &[ONE, GO])?;
    judge(rt, "no state", &[0x00000000, GO])?;
    judge_runs(rt, "64 states", &[Run(1, 0x00400000), Run(64, GO)])?;
    judge_runs(rt, "65 states", &[Run(1, 0x00410000), Run(65, GO)])?;
    judge(rt, "16 registers", &[0x00011000, GO])?;
    judge(rt, "17 registers", &[0x00011100, GO])?;
    judge(rt, "8 inputs", &[0x00010008, GO])?;
    judge(rt, "9 inputs", &[0x00010009, GO])?;
    judge(rt, "a bit above the states", &[0x01010000, GO])?;
    judge(rt, "a head of kind 1", &[0x10010000, GO])
}

pub fn lengths(rt: &HostRuntime) -> io::Result<()> {
    judge(rt, "no word", &[])?;
    judge(rt, "a head alone", &[ONE])?;
    judge(rt, "a bad head alone", &[0x00000000])?;
    judge(rt, "an expression that is not ended", &[ONE, ZERO])?;
    judge(rt, "an action and no go-to", &[ONE, ZERO, EMIT])?;
    judge(rt, "the second row missing", &[TWO, GO])?;
    judge(rt, "a word left over", &[ONE, GO, GO])?;
    judge(
        rt,
        "two words left over, the first of no kind",
        &[ONE, GO, 0xffffffff, GO],
    )?;
    judge_runs(rt, "2,048 words, a bad head", &[Run(2048, 0)])?;
    judge_runs(rt, "2,049 words, a bad head", &[Run(2049, 0)])?;
    long(rt, "2,048 words", 9)?;
    long(rt, "2,049 words", 10)
}

// Eleven rows: ten of eight actions with 24 words each, and one whose second action has `last` negations.
fn long(rt: &HostRuntime, name: &str, last: usize) -> io::Result<()> {
    let heap = rt.alloc();
    let action = spelt(heap, &[Run(1, ZERO), Run(23, NEG), Run(1, EMIT)])?;
    let mut row = action.repeat(heap, 8)?;
    row.push(GO)?;
    let end = spelt(
        heap,
        &[Run(1, ZERO), Run(last, NEG), Run(1, EMIT), Run(1, GO)],
    )?;
    let mut words = vec![in heap; 0x000b0000]?;
    words.extend_from_slice(&row.repeat(heap, 10)?)?;
    words.extend_from_slice(&action)?;
    words.extend_from_slice(&end)?;
    judge(rt, name, &words)
}

const WORDS: [(&str, &[u32]); 19] = [
    ("the largest constant", &[TWO, 0x1fffffff, EMIT, GO, GO]),
    ("register 1 of two", &[TWO, 0x20000001, EMIT, GO, GO]),
    ("register 2 of two", &[TWO, 0x20000002, EMIT, GO, GO]),
    ("input 0 of one", &[TWO, 0x30000000, EMIT, GO, GO]),
    ("input 1 of one", &[TWO, 0x30000001, EMIT, GO, GO]),
    ("a symbol", &[TWO, 0x40000000, EMIT, GO, GO]),
    ("operation 3", &[TWO, ZERO, NEG, EMIT, GO, GO]),
    ("operation 4", &[TWO, ZERO, 0x50000004, EMIT, GO, GO]),
    ("test 1", &[TWO, ZERO, ZERO, 0x60000001, GO, GO, GO]),
    ("test 2", &[TWO, ZERO, ZERO, 0x60000002, GO, GO, GO]),
    ("store in 1 of two", &[TWO, ZERO, 0x70000001, GO, GO]),
    ("store in 2 of two", &[TWO, ZERO, 0x70000002, GO, GO]),
    ("port 15", &[TWO, ZERO, 0x8000000f, GO, GO]),
    ("port 16", &[TWO, ZERO, 0x80000010, GO, GO]),
    ("go to 1 of two", &[TWO, GO, 0x90000001]),
    ("go to 2 of two", &[TWO, GO, 0x90000002]),
    ("kind 0 behind the head", &[TWO, GO, 0x00000000]),
    ("kind A", &[TWO, GO, 0xa0000000]),
    ("kind F", &[TWO, GO, 0xf0000000]),
];

pub fn words(rt: &HostRuntime) -> io::Result<()> {
    judge_all(rt, &WORDS)
}

const EXPRESSIONS_AT_LIMITS: [(&str, &[Run]); 4] = [
    (
        "24 words",
        &[
            Run(1, ONE),
            Run(1, ZERO),
            Run(23, NEG),
            Run(1, EMIT),
            Run(1, GO),
        ],
    ),
    (
        "25 words",
        &[
            Run(1, ONE),
            Run(1, ZERO),
            Run(24, NEG),
            Run(1, EMIT),
            Run(1, GO),
        ],
    ),
    (
        "eight values",
        &[
            Run(1, ONE),
            Run(8, ZERO),
            Run(7, SUM),
            Run(1, EMIT),
            Run(1, GO),
        ],
    ),
    (
        "nine values",
        &[
            Run(1, ONE),
            Run(9, ZERO),
            Run(8, SUM),
            Run(1, EMIT),
            Run(1, GO),
        ],
    ),
];

const EXPRESSIONS: [(&str, &[u32]); 7] = [
    ("no expression before an emit", &[ONE, EMIT, GO]),
    ("a sum of one value", &[ONE, ZERO, SUM, EMIT, GO]),
    ("a negation of none", &[ONE, NEG, EMIT, GO]),
    ("two values before an emit", &[ONE, ZERO, ZERO, EMIT, GO]),
    (
        "two values before a store",
        &[TWO, ZERO, ZERO, STORE, GO, GO],
    ),
    (
        "a symbol behind a sum of none",
        &[ONE, SUM, 0x40000000, EMIT, GO],
    ),
    ("a value before a go-to", &[ONE, ZERO, GO]),
];

pub fn expressions(rt: &HostRuntime) -> io::Result<()> {
    for (name, runs) in EXPRESSIONS_AT_LIMITS {
        judge_runs(rt, name, runs)?;
    }
    judge_all(rt, &EXPRESSIONS)
}

const ACTIONS: [(&str, &[u32]); 5] = [
    ("stored twice", &[TWO, ZERO, STORE, ZERO, STORE, GO, GO]),
    (
        "stored twice with an emit between",
        &[TWO, ZERO, STORE, ZERO, EMIT, ZERO, STORE, GO, GO],
    ),
    (
        "two registers stored",
        &[TWO, ZERO, STORE, ZERO, 0x70000001, GO, GO],
    ),
    (
        "stored on both sides of a test",
        &[TWO, ZERO, ZERO, SAME, ZERO, STORE, GO, ZERO, STORE, GO, GO],
    ),
    (
        "stored in both rows",
        &[TWO, ZERO, STORE, GO, ZERO, STORE, GO],
    ),
];

pub fn actions(rt: &HostRuntime) -> io::Result<()> {
    judge_all(rt, &ACTIONS)?;
    eight(rt, "eight actions", &[])?;
    eight(rt, "nine actions", &[ZERO, EMIT])?;
    eight(rt, "a ninth of two values", &[ZERO, ZERO, EMIT])
}

// A row of eight emits, and these words before the go-to.
fn eight(rt: &HostRuntime, name: &str, more: &[u32]) -> io::Result<()> {
    let heap = rt.alloc();
    let mut words = vec![in heap; ONE]?;
    words.extend_from_slice(&[ZERO, EMIT].repeat(heap, 8)?)?;
    words.extend_from_slice(more)?;
    words.push(GO)?;
    judge(rt, name, &words)
}

const TESTS: [(&str, &[u32]); 4] = [
    ("a test row", &[ONE, ZERO, ZERO, SAME, GO, GO]),
    ("a test of no expression", &[ONE, SAME, GO, GO]),
    ("a test of one expression", &[ONE, ZERO, SAME, GO, GO]),
    (
        "a test of three expressions",
        &[ONE, ZERO, ZERO, ZERO, SAME, GO, GO],
    ),
];

const TESTS_AT_LIMITS: [(&str, &[Run]); 5] = [
    (
        "24 words on each side",
        &[
            Run(1, ONE),
            Run(1, ZERO),
            Run(23, NEG),
            Run(1, ZERO),
            Run(23, NEG),
            Run(1, SAME),
            Run(2, GO),
        ],
    ),
    (
        "25 words on the left",
        &[
            Run(1, ONE),
            Run(1, ZERO),
            Run(24, NEG),
            Run(1, ZERO),
            Run(23, NEG),
            Run(1, SAME),
            Run(2, GO),
        ],
    ),
    (
        "25 words on the right",
        &[
            Run(1, ONE),
            Run(1, ZERO),
            Run(23, NEG),
            Run(1, ZERO),
            Run(24, NEG),
            Run(1, SAME),
            Run(2, GO),
        ],
    ),
    (
        "eight values on each side",
        &[
            Run(1, ONE),
            Run(8, ZERO),
            Run(7, SUM),
            Run(8, ZERO),
            Run(7, SUM),
            Run(1, SAME),
            Run(2, GO),
        ],
    ),
    (
        "nine values on the right",
        &[
            Run(1, ONE),
            Run(1, ZERO),
            Run(9, ZERO),
            Run(8, SUM),
            Run(1, SAME),
            Run(2, GO),
        ],
    ),
];

const TEST_ROWS: [(&str, &[u32]); 5] = [
    (
        "a test behind an action",
        &[ONE, ZERO, EMIT, ZERO, ZERO, SAME, GO, GO],
    ),
    (
        "a test behind a test",
        &[ONE, ZERO, ZERO, SAME, ZERO, ZERO, SAME, GO, GO],
    ),
    ("a second transition missing", &[ONE, ZERO, ZERO, SAME, GO]),
    (
        "go to 1 of one on the no side",
        &[ONE, ZERO, ZERO, SAME, GO, 0x90000001],
    ),
    ("a third transition", &[ONE, ZERO, ZERO, SAME, GO, GO, GO]),
];

pub fn tests(rt: &HostRuntime) -> io::Result<()> {
    judge_all(rt, &TESTS)?;
    for (name, runs) in TESTS_AT_LIMITS {
        judge_runs(rt, name, runs)?;
    }
    judge_all(rt, &TEST_ROWS)
}
