// A kept pair: where its expressions stand in its words, how many symbols and facts it has, and its states.
ghost use Rattle.std.specs.Prelude.{◌≡◌, true};
ghost use Rattle.rules.specs.Kept.{Fit, number_at, is_kept, first_registers, second_registers, substitution_registers, fact_count, symbol_count};

use crate::counts::Counts;
use crate::registers::Registers;
use expression::words::number_of;
use proposal::pair::PairHead;

// The place of the first expression.
const EXPRESSIONS: usize = 3;

// The words of a pair that was filed, or none of pair 0.
#[derive(Clone, Copy)]
pub struct KeptPair<'a> {
    pub counts: Counts,
    pub words: &'a [u32],
    ghost fit: { Fit counts },
    ghost kept: { is_kept counts words.now ≡ true },
}

// The number in the word at a place; pair 0 has no words, and its numbers are 0.
pub fn number_at(words: &[u32], place: usize) -> u32
    ensures { result ≡ number_at words.now place }
{
    words.get(place).map_or(0, |word| number_of(*word))
}

// How many facts the pair has.
pub fn fact_count(words: &[u32]) -> u32
    ensures { result ≡ fact_count words.now }
{
    PairHead::from(number_at(words, 0)).facts
}

// How many symbols the pair has.
pub fn symbol_count(counts: Counts, words: &[u32]) -> u32
    requires { Fit counts }
    ensures { result ≡ symbol_count counts words.now }
{
    if words.is_empty() {
        return counts.one.registers + (counts.two.registers - counts.shared);
    }
    PairHead::from(number_at(words, 0)).symbols
}

// Where the registers of the first machine stand.
pub fn first_registers(words: &[u32]) -> Registers
    ensures { result ≡ first_registers words.now }
{
    Registers {
        register: 0,
        mask: number_at(words, 1),
        place: EXPRESSIONS,
        shared: 0,
        offset: 0,
    }
}

// Where the registers of the second machine stand, from a place on; in pair 0 they have the symbols of the shared ones, then those behind the first machine's.
pub fn second_registers(counts: Counts, words: &[u32], place: usize) -> Registers
    requires { Fit counts }
    ensures { result ≡ second_registers counts words.now place }
{
    if words.is_empty() {
        return Registers {
            register: 0,
            mask: 0,
            place,
            shared: counts.shared,
            offset: counts.one.registers - counts.shared,
        };
    }
    Registers {
        register: 0,
        mask: number_at(words, 2),
        place,
        shared: 0,
        offset: 0,
    }
}

// Where the expressions of a claim's substitution stand: each symbol has one.
pub fn substitution_registers() -> Registers
    ensures { result ≡ substitution_registers }
{
    Registers {
        register: 0,
        mask: u32::MAX,
        place: EXPRESSIONS,
        shared: 0,
        offset: 0,
    }
}
