// What a file of a comparison holds, and why one is not read.
ghost use Rattle.std.specs.Prelude.{◌≡◌};
ghost use Rattle.records.specs.declared.file.FileFault.TheVariants.{NoMemory};
ghost use Rattle.records.specs.Domains.{NamesDomain};

use std::alloc::{AllocError, AllocFailed};
use std::error::Error;

// The domain of the values.
#[derive(Clone, Copy, Debug, PartialEq, Eq)]
pub enum Values {
    Words,
    Bytes,
}

// A number that stands for no domain.
#[derive(Clone, Copy, Debug, PartialEq, Eq)]
pub struct UnknownDomain(pub u32);

// A pair or a claim, by its words.
#[derive(Drop)]
pub enum Part {
    Pair(Vec<u32>),
    Claim(Vec<u32>),
}

// The domain, how many registers are shared, the two tables, and the parts of the proposal in order.
#[derive(Drop)]
pub struct File {
    pub values: Values,
    pub shared: u32,
    pub first: Vec<u32>,
    pub second: Vec<u32>,
    pub parts: Vec<Part>,
}

// Why a file is not read.
#[derive(Clone, Copy, Debug, PartialEq, Eq)]
pub enum FileFault {
    BadFile,
    NoMemory,
}

impl TryFrom<u32> for Values {
    type Error = UnknownDomain;

    ghost try_from_gives = { NamesDomain };

    fn try_from(number: u32) -> Result<Self, UnknownDomain> {
        match number {
            0 => Ok(Values::Words),
            1 => Ok(Values::Bytes),
            _ => Err(UnknownDomain(number)),
        }
    }
}

impl From<AllocError> for FileFault {
    ghost from_gives = { λ _ y. y ≡ NoMemory };

    fn from(_e: AllocError) -> FileFault {
        FileFault::NoMemory
    }
}

impl<T: Drop> From<AllocFailed<T>> for FileFault {
    ghost from_gives = { λ _ y. y ≡ NoMemory };

    fn from(_e: AllocFailed<T>) -> FileFault {
        FileFault::NoMemory
    }
}

impl Error for FileFault {}
