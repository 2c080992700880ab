// The head of a table: its counts, and what they allow in the words behind it.
ghost use Rattle.std.specs.Prelude.{◌≡◌};
ghost use Rattle.std.specs.Result.{result_ok};
ghost use Rattle.machine.specs.Words.{head_of, table_limits};

use crate::words::Limits;

// The counts of a table.
#[derive(Clone, Copy)]
pub struct Head {
    pub states: u32,
    pub registers: u32,
    pub inputs: u32,
}

const MOST_STATES: u32 = 64;

const MOST_REGISTERS: u32 = 16;

const MOST_INPUTS: u32 = 8;

const TESTS: u32 = 2;

const PORTS: u32 = 16;

// A head with a count out of range.
#[derive(Clone, Copy, PartialEq, Eq)]
pub struct BadHead;

impl TryFrom<u32> for Head {
    type Error = BadHead;

    ghost try_from_gives = { λ w r. result_ok r ≡ head_of w };

    // The head that a word is, if its counts are in range.
    fn try_from(word: u32) -> Result<Head, BadHead> {
        let states = word / 65536;
        let registers = word / 256 % 256;
        let inputs = word % 256;
        if states < 1
            || states > MOST_STATES
            || registers > MOST_REGISTERS
            || inputs > MOST_INPUTS
        {
            return Err(BadHead);
        }
        Ok(Head {
            states,
            registers,
            inputs,
        })
    }
}

impl Head {
    // What may stand in a table with this head.
    pub fn limits(&self) -> Limits
        ensures { result ≡ table_limits self.now }
    {
        Limits {
            registers: self.registers,
            inputs: self.inputs,
            symbols: 0,
            tests: TESTS,
            stores: self.registers,
            ports: PORTS,
            states: self.states,
        }
    }
}
