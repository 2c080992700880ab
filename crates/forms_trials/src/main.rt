// Runs worked examples of normal forms and prints a line for each, which is compared with the stored output.
// (The host's handle is lent to each call.)
#![tactic(auto)]

use domain::Domain;
use domain::byte::Byte;
use domain::word::Word;
use expression::shape::Expression;
use forms::Term;
use samples::zero_terms;
use std::io;
use workspace::layout::ROOM;
use workspace::{Level, Workspace};

// The terms below the level.
const BELOW: usize = 3;

// Words as the format has them.
const ONE: u32 = 0x10000001;

const TWO: u32 = 0x10000002;

const INPUT: u32 = 0x30000000;

const SYMBOL: u32 = 0x40000000;

const SUM: u32 = 0x50000000;

const DIFFERENCE: u32 = 0x50000001;

const PRODUCT: u32 = 0x50000002;

const NEGATION: u32 = 0x50000003;

// (s0 + 1) (s0 - 1), and s0 s0 - 1
const SQUARES: [u32; 7] = [SYMBOL, ONE, SUM, SYMBOL, ONE, DIFFERENCE, PRODUCT];

const SQUARE_LESS_ONE: [u32; 5] = [SYMBOL, SYMBOL, PRODUCT, ONE, DIFFERENCE];

// (s0 + 1) (s0 + 1), and s0 s0 + 1
const SQUARE_OF_SUM: [u32; 7] = [SYMBOL, ONE, SUM, SYMBOL, ONE, SUM, PRODUCT];

const SQUARE_AND_ONE: [u32; 5] = [SYMBOL, SYMBOL, PRODUCT, ONE, SUM];

// 2 s0, and s0 + s0
const TWICE: [u32; 3] = [TWO, SYMBOL, PRODUCT];

const ADDED: [u32; 3] = [SYMBOL, SYMBOL, SUM];

// s31 i7 - i7 s31, and -(s31 - s31)
const LAST_VARIABLES: [u32; 7] = [
    SYMBOL + 31,
    INPUT + 7,
    PRODUCT,
    INPUT + 7,
    SYMBOL + 31,
    PRODUCT,
    DIFFERENCE,
];

const NOTHING: [u32; 4] = [SYMBOL + 31, SYMBOL + 31, DIFFERENCE, NEGATION];

// the fourth power of s0, and the fifth
const FOURTH: [u32; 7] = [SYMBOL, SYMBOL, PRODUCT, SYMBOL, PRODUCT, SYMBOL, PRODUCT];

const FIFTH: [u32; 9] = [
    SYMBOL, SYMBOL, PRODUCT, SYMBOL, PRODUCT, SYMBOL, PRODUCT, SYMBOL, PRODUCT,
];

// the fourth power of s0 times (s1 - s1)
const FOURTH_TIMES_NOTHING: [u32; 11] = [
    SYMBOL,
    SYMBOL,
    PRODUCT,
    SYMBOL,
    PRODUCT,
    SYMBOL,
    PRODUCT,
    SYMBOL + 1,
    SYMBOL + 1,
    DIFFERENCE,
    PRODUCT,
];

// (s0 + s1 + s2 + s3) (s4 + s5 + s6 + s7), the same with 1 added, and with s8 in the second sum
const SIXTEEN: [u32; 15] = [
    SYMBOL,
    SYMBOL + 1,
    SUM,
    SYMBOL + 2,
    SUM,
    SYMBOL + 3,
    SUM,
    SYMBOL + 4,
    SYMBOL + 5,
    SUM,
    SYMBOL + 6,
    SUM,
    SYMBOL + 7,
    SUM,
    PRODUCT,
];

const SEVENTEEN: [u32; 17] = [
    SYMBOL,
    SYMBOL + 1,
    SUM,
    SYMBOL + 2,
    SUM,
    SYMBOL + 3,
    SUM,
    SYMBOL + 4,
    SYMBOL + 5,
    SUM,
    SYMBOL + 6,
    SUM,
    SYMBOL + 7,
    SUM,
    PRODUCT,
    ONE,
    SUM,
];

const TWENTY: [u32; 17] = [
    SYMBOL,
    SYMBOL + 1,
    SUM,
    SYMBOL + 2,
    SUM,
    SYMBOL + 3,
    SUM,
    SYMBOL + 4,
    SYMBOL + 5,
    SUM,
    SYMBOL + 6,
    SUM,
    SYMBOL + 7,
    SUM,
    SYMBOL + 8,
    SUM,
    PRODUCT,
];

// (s0 + .. + s5) (s0 + .. + s5), and s0 s0 + .. + s5 s5
const SIX_SQUARED: [u32; 23] = [
    SYMBOL,
    SYMBOL + 1,
    SUM,
    SYMBOL + 2,
    SUM,
    SYMBOL + 3,
    SUM,
    SYMBOL + 4,
    SUM,
    SYMBOL + 5,
    SUM,
    SYMBOL,
    SYMBOL + 1,
    SUM,
    SYMBOL + 2,
    SUM,
    SYMBOL + 3,
    SUM,
    SYMBOL + 4,
    SUM,
    SYMBOL + 5,
    SUM,
    PRODUCT,
];

const SIX_SQUARES: [u32; 23] = [
    SYMBOL,
    SYMBOL,
    PRODUCT,
    SYMBOL + 1,
    SYMBOL + 1,
    PRODUCT,
    SUM,
    SYMBOL + 2,
    SYMBOL + 2,
    PRODUCT,
    SUM,
    SYMBOL + 3,
    SYMBOL + 3,
    PRODUCT,
    SUM,
    SYMBOL + 4,
    SYMBOL + 4,
    PRODUCT,
    SUM,
    SYMBOL + 5,
    SYMBOL + 5,
    PRODUCT,
    SUM,
];

// What is compared, by which name.
const COMPARED: [(&str, &[u32], &[u32]); 12] = [
    (
        "(s0 + 1) (s0 - 1) and s0 s0 - 1",
        &SQUARES,
        &SQUARE_LESS_ONE,
    ),
    (
        "(s0 + 1) (s0 + 1) and s0 s0 + 1",
        &SQUARE_OF_SUM,
        &SQUARE_AND_ONE,
    ),
    ("2 s0 and s0 + s0", &TWICE, &ADDED),
    (
        "s31 i7 - i7 s31 and -(s31 - s31)",
        &LAST_VARIABLES,
        &NOTHING,
    ),
    ("fourth power and 1", &FOURTH, &[ONE]),
    ("fifth power and 1", &FIFTH, &[ONE]),
    ("1 and fifth power", &[ONE], &FIFTH),
    (
        "fourth power times nothing and 0",
        &FOURTH_TIMES_NOTHING,
        &NOTHING,
    ),
    ("sixteen terms and themselves", &SIXTEEN, &SIXTEEN),
    ("seventeen terms and themselves", &SEVENTEEN, &SEVENTEEN),
    ("twenty terms and themselves", &TWENTY, &TWENTY),
    (
        "a sum of six squared and six squares",
        &SIX_SQUARED,
        &SIX_SQUARES,
    ),
];

fn print_compared<D: Domain>(
    rt: &HostRuntime,
    row: &mut [Term<D>],
    what: &str,
    left: &[u32],
    right: &[u32],
) -> io::Result<()> {
    let (Some(left), Some(right)) = (Expression::of(left), Expression::of(right)) else {
        return println!(rt; "{what}: not an expression");
    };
    if row.len() < BELOW + ROOM {
        return println!(rt; "{what}: not compared");
    }
    let mut workspace = Workspace {
        row,
        level: Level { at: BELOW },
    };
    let outcome = match workspace.compare(left, right) {
        Ok(true) => "one form",
        Ok(false) => "two forms",
        Err(_) => "over the limits",
    };
    let level = workspace.level.at;
    println!(rt; "{what}: {outcome}, level {level}")
}

fn print_all<D: Domain>(rt: &HostRuntime, row: &mut [Term<D>]) -> io::Result<()> {
    for (what, left, right) in COMPARED {
        print_compared(rt, row, what, left, right)?;
    }
    Ok(())
}

fn run(rt: &HostRuntime) -> anyhow::Result<()> {
    println!(rt; "words")?;
    let mut words = zero_terms::<Word>(rt.alloc(), BELOW + ROOM)?;
    print_all(rt, words.as_mut_slice())?;
    println!(rt; "bytes")?;
    let mut bytes = zero_terms::<Byte>(rt.alloc(), BELOW + ROOM)?;
    print_all(rt, bytes.as_mut_slice())?;
    Ok(())
}

fn main(rt: HostRuntime) -> anyhow::Result<()> {
    run(&rt)
}
