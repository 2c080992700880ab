// Examples of the two domains.
use domain::byte::Byte;
use domain::word::Word;
use domain::{Domain, fips};
use std::io;

fn print_product(rt: &HostRuntime, a: u8, b: u8) -> io::Result<()> {
    let c = fips::product(a, b);
    println!(rt; "{a:02x} * {b:02x} = {c:02x}")
}

fn print_words(rt: &HostRuntime, a: u32, b: u32) -> io::Result<()> {
    let x = Word::from(a);
    let y = Word::from(b);
    let sum = x.add(y).bits;
    let product = x.mul(y).bits;
    let opposite = x.neg().bits;
    let below = x.below(y);
    println!(rt;
        "words {a:08x} {b:08x}: sum {sum:08x}, product {product:08x}, opposite {opposite:08x}, below {below}"
    )
}

// Not one function with the words: a byte has two digits, and its products stand apart.
fn print_bytes(rt: &HostRuntime, a: u8, b: u8) -> io::Result<()> {
    let x = Byte::from(a);
    let y = Byte::from(b);
    let sum = x.add(y).value;
    let opposite = x.neg().value;
    let below = x.below(y);
    println!(rt; "bytes {a:02x} {b:02x}: sum {sum:02x}, opposite {opposite:02x}, below {below}")
}

// Whether 0 - 1 is below 0.
fn is_minus_one_below<D: Domain>() -> bool {
    D::zero().add(D::one().neg()).below(D::zero())
}

fn print_minus_one(rt: &HostRuntime) -> io::Result<()> {
    let (over_words, over_bytes) = (is_minus_one_below::<Word>(), is_minus_one_below::<Byte>());
    println!(rt; "0 - 1 below 0: words {over_words}, bytes {over_bytes}")
}

// The worked products of FIPS 197.
const PRODUCTS: [(u8, u8); 7] = [
    (0x57, 0x83),
    (0x57, 0x13),
    (0x57, 0x02),
    (0xae, 0x02),
    (0x47, 0x02),
    (0x8e, 0x02),
    (0x00, 0xff),
];

pub fn run(rt: &HostRuntime) -> anyhow::Result<()> {
    for (a, b) in PRODUCTS {
        print_product(rt, a, b)?;
    }
    print_words(rt, 0xffffffff, 1)?;
    print_words(rt, 0x7fffffff, 0x80000000)?;
    print_bytes(rt, 0x57, 0x83)?;
    print_minus_one(rt)?;
    Ok(())
}
