// What is printed.
ghost use Rattle.std.specs.Prelude.{◌≡◌, IfOk, Some, string_bytes};
ghost use Rattle.records.specs.Lines.{line_bytes, values_bytes, fault_bytes};

use crate::file::{FileFault, Values};
use crate::line::Line;
use std::alloc::{AllocError, Global};
use std::fmt;

impl fmt::Display for Line {
    ghost output = { λ l. Some (line_bytes l) };

    fn fmt<W: fmt::Write>(&self, f: &mut fmt::Formatter<W>) -> fmt::Result {
        match *self {
            Line::Opened => write!(f, "opened"),
            Line::Pair(n) => write!(f, "pair {n}"),
            Line::Claim(n) => write!(f, "claim {n}"),
            Line::Refused {
                number,
                machine,
                place,
            } => write!(f, "refused {number} {machine} {place}"),
            Line::Equivalent => write!(f, "equivalent"),
            Line::Unmatched {
                pair,
                length,
                turns,
            } => write!(f, "unmatched {pair} {length} {turns}"),
            Line::BadFile => write!(f, "bad file"),
        }
    }
}

impl fmt::Display for Values {
    ghost output = { λ v. Some (values_bytes v) };

    fn fmt<W: fmt::Write>(&self, f: &mut fmt::Formatter<W>) -> fmt::Result {
        match self {
            Values::Words => write!(f, "words"),
            Values::Bytes => write!(f, "bytes"),
        }
    }
}

// Not one with that of domains: two types, each with its own words.
impl fmt::Display for FileFault {
    ghost output = { λ fault. Some (fault_bytes fault) };

    fn fmt<W: fmt::Write>(&self, f: &mut fmt::Formatter<W>) -> fmt::Result {
        match self {
            FileFault::BadFile => write!(f, "bad file"),
            FileFault::NoMemory => write!(f, "no memory"),
        }
    }
}

impl Line {
    // The line's bytes, without the line feed.
    // Beside `to_string`, so that a contract names the bytes.
    pub fn text(&self, heap: Global) -> Result<String, AllocError>
        ensures { IfOk result (λ s. string_bytes s ≡ line_bytes self.now) }
    {
        self.to_string(heap)
    }
}
