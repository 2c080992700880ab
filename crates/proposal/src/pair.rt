// The reader of pairs: two states, a count of symbols, an expression for each register of either machine, and facts.
ghost use Rattle.std.specs.Prelude.{◌≡◌, ℕ, ◌^◌, ◌<◌, ◌&&◌, IfOk, nat_lt};
ghost use Rattle.proposal.specs.Reading.{pair_head, is_state, symbols_exist, bits, due, read_pair};
ghost use Rattle.proposal.specs.Places.{pair_told, told_as, head_of, head_told, the_counts, mask_word, body_places, body_head};

use crate::facts::facts_end;
use crate::fault::PairFault;
use crate::stored::masked_end;
use expression::kind::Kind;
use expression::words::number_of;
use machine::head::Head;
use machine::words::{Limits, Reader, WordFault};

// The counts of a pair: a state of either machine, symbols and facts.
#[derive(Clone, Copy)]
pub struct PairHead {
    pub first: u32,
    pub second: u32,
    pub symbols: u32,
    pub facts: u32,
}

const MOST_SYMBOLS: u32 = 32;

const MOST_FACTS: u32 = 8;

const TESTS: u32 = 4;

const STORES: u32 = 16;

impl From<u32> for PairHead {
    ghost from_gives = { λ n h. h ≡ head_of (pair_head n) };

    // The fields of the number of a pair's first word.
    fn from(number: u32) -> PairHead {
        PairHead {
            first: number % 256,
            second: number / 256 % 256,
            symbols: number / 65536 % 64,
            facts: number / 4194304,
        }
    }
}

// A state other than reset, which exists.
fn is_state(states: u32, state: u32) -> bool
    ensures { result ≡ is_state states state }
{
    state != 0 && state < states
}

// The first word of a pair: malformed comes before a state that is reset or missing.
fn head_of(one: &Head, two: &Head, word: u32) -> Result<PairHead, PairFault>
    ensures { pair_told result ≡ head_told one.now.states two.now.states word }
{
    let head = PairHead::from(number_of(word));
    if !Kind::Pair.is_of(word) || head.symbols > MOST_SYMBOLS || head.facts > MOST_FACTS {
        return Err(PairFault::Malformed(0));
    }
    if !is_state(one.states, head.first) || !is_state(two.states, head.second) {
        return Err(PairFault::BadState);
    }
    Ok(head)
}

// Whether a mask has ones for registers only, and every register without one has the symbol of its number.
// By number: a register without a bit is looked for among the symbols by its number.
fn mask_fits(mask: u32, registers: u32, symbols: u32) -> bool
    ensures { result ≡ (nat_lt mask (2 ^ registers) && symbols_exist (bits registers mask) 0 symbols) }
{
    let mut left = mask;
    for register in 0..registers {
        let has_expression = left % 2 == 1;
        if !has_expression && register >= symbols {
            return false;
        }
        left /= 2;
    }
    left == 0
}

// The mask at a place.
fn mask_at(words: &[u32], place: usize, registers: u32, symbols: u32) -> Result<u32, PairFault>
    ensures reads { pair_told result ≡ mask_word words.now registers symbols place }
    ensures within { IfOk result (λ mask. mask < 2 ^ registers) }
{
    let Some(word) = words.get(place) else {
        return Err(PairFault::Malformed(place));
    };
    let mask = number_of(*word);
    if !Kind::Mask.is_of(*word) || !mask_fits(mask, registers, symbols) {
        return Err(PairFault::Malformed(place));
    }
    Ok(mask)
}

// The place behind the expressions of both masks and the facts.
fn expressions_end(
    reader: &Reader<'_>,
    first: u32,
    second: u32,
    facts: u32,
) -> Result<usize, WordFault>
    ensures { (m n : ℕ) → first < 2 ^ m → second < 2 ^ n → told_as 6 result ≡ body_places reader.now.limits reader.now.words.now (due (bits m first) 0) (due (bits n second) 0) facts }
{
    let behind_first = masked_end(reader, first, 3)?;
    let behind_second = masked_end(reader, second, behind_first)?;
    facts_end(reader, facts, behind_second)
}

// The masks, expressions and facts of a pair with this head, and nothing behind them.
fn read_body(one: &Head, two: &Head, words: &[u32], head: PairHead) -> Result<PairHead, PairFault>
    ensures { pair_told result ≡ body_head one.now two.now words.now head }
{
    let first = mask_at(words, 1, one.registers, head.symbols)?;
    let second = mask_at(words, 2, two.registers, head.symbols)?;
    let limits = Limits {
        registers: 0,
        inputs: one.inputs,
        symbols: head.symbols,
        tests: TESTS,
        stores: STORES,
        ports: 0,
        states: 0,
    };
    let reader = Reader { words, limits };
    let end = expressions_end(&reader, first, second, head.facts)?;
    if end != words.len() {
        return Err(PairFault::Malformed(end));
    }
    Ok(head)
}

// The counts of a pair of two machines with these counts, or the first fault of its words.
// (Two heads: the caller has them apart, and nothing is said of both together.)
pub fn read_pair(one: &Head, two: &Head, words: &[u32]) -> Result<PairHead, PairFault>
    ensures { pair_told result ≡ the_counts (read_pair one.now two.now words.now) }
{
    let Some(first) = words.first() else {
        return Err(PairFault::Malformed(0));
    };
    let head = head_of(one, two, *first)?;
    read_body(one, two, words, head)
}
