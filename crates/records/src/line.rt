// A line that is printed.
#[derive(Clone, Copy, Debug, PartialEq, Eq)]
pub enum Line {
    Opened,
    Pair(u32),
    Claim(u32),
    // By its number in docs/REFUSALS.md: the faults are enums of crates that know no lines, and each gives its number.
    Refused {
        number: u32,
        machine: u32,
        place: u32,
    },
    Equivalent,
    Unmatched {
        pair: u32,
        length: u32,
        turns: u32,
    },
    BadFile,
}
