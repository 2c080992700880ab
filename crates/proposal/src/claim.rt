// The reader of claims: a path of the first machine from a start pair, and a path of the second to an end pair, with the end pair's symbols as expressions; or that the first path is infeasible.
ghost use Rattle.std.specs.Prelude.{◌≡◌, ◌/◌, ◌%◌, ◌^◌, not, ◌&&◌, ◌||◌, ◌==◌, nat_le, nat_lt};
ghost use Rattle.expression.specs.Kinds.{kind_number};
ghost use Rattle.expression.specs.Words.{kind, number};
ghost use Rattle.proposal.specs.Reading.{read_claim_head, read_live, read_infeasible, read_claim};
ghost use Rattle.proposal.specs.Claims.{turns_of, live_head, infeasible_head, claim_head_told, path_told, told, path_word, the_claim};

use crate::fault::ClaimFault;
use crate::stored::substitution_end;
use expression::kind::Kind;
use expression::words::number_of;
use machine::words::{Limits, Reader};

// A path: how many steps it takes, and their turns. Step i turns no where bit i is 1.
#[derive(Clone, Copy)]
pub struct Path {
    pub length: u32,
    pub turns: u32,
}

// A claim as read; pairs go by their numbers.
#[derive(Clone, Copy)]
pub enum Claim {
    Live {
        start: u32,
        end: u32,
        first: Path,
        second: Path,
    },
    Infeasible {
        start: u32,
        first: Path,
    },
}

// The first word of a claim.
#[derive(Clone, Copy)]
enum ClaimHead {
    Live { start: u32, end: u32 },
    Infeasible { start: u32 },
}

const LONGEST_PATH: u32 = 16;

// Whether a word begins a claim: no flag but that of an infeasible claim, which has no end pair.
fn is_head(word: u32) -> bool
    ensures { result ≡ (kind word == 11 && (nat_le (number word / 65536) 1 && (not (number word / 65536 == 1) || number word / 256 % 256 == 0))) }
{
    let flags = number_of(word) / 65536;
    let end = number_of(word) / 256 % 256;
    Kind::Claim.is_of(word) && flags <= 1 && (flags != 1 || end == 0)
}

// The head that the first word of a claim is.
fn head_of(word: u32) -> Result<ClaimHead, ClaimFault>
    ensures { claim_head_told result ≡ read_claim_head word }
{
    if !is_head(word) {
        return Err(ClaimFault::Malformed(0));
    }
    let number = number_of(word);
    let start = number % 256;
    if number / 65536 == 1 {
        return Ok(ClaimHead::Infeasible { start });
    }
    Ok(ClaimHead::Live {
        start,
        end: number / 256 % 256,
    })
}

// Whether a number is a path: 1 to 16 steps, no unused bit, and turns of these steps only.
fn is_path(n: u32) -> bool
    ensures { result ≡ (nat_le 1 (n % 32) && (nat_le (n % 32) 16 && (n / 32 % 8 == 0 && nat_lt (n / 256) (2 ^ (n % 32))))) }
{
    let length = n % 32;
    length >= 1 && length <= LONGEST_PATH && n / 32 % 8 == 0 && n / 256 < 1 << length
}

// The path at a place.
fn path_at(words: &[u32], which: Kind, place: usize) -> Result<Path, ClaimFault>
    ensures { path_told result ≡ path_word (kind_number which) words.now place }
{
    let Some(word) = words.get(place) else {
        return Err(ClaimFault::Malformed(place));
    };
    let number = number_of(*word);
    if !which.is_of(*word) || !is_path(number) {
        return Err(ClaimFault::Malformed(place));
    }
    Ok(Path {
        length: number % 32,
        turns: number / 256,
    })
}

// An infeasible claim: its start pair is filed, and nothing stands behind its path.
fn read_infeasible(
    symbols: &[u32],
    words: &[u32],
    start: u32,
    first: Path,
) -> Result<Claim, ClaimFault>
    ensures { told result ≡ the_claim (read_infeasible 0 symbols.now words.now (infeasible_head start) (turns_of first)) }
{
    if start as usize >= symbols.len() {
        return Err(ClaimFault::NotFiled);
    }
    if words.len() != 2 {
        return Err(ClaimFault::Malformed(2));
    }
    Ok(Claim::Infeasible { start, first })
}

// A live claim: its second path, then its pairs, which are filed, then the substitution and nothing behind it.
fn read_live(
    inputs: u32,
    symbols: &[u32],
    words: &[u32],
    start: u32,
    end: u32,
    first: Path,
) -> Result<Claim, ClaimFault>
    ensures { told result ≡ the_claim (read_live inputs symbols.now words.now (live_head start end) (turns_of first)) }
{
    let second = path_at(words, Kind::SecondPath, 2)?;
    let Some(start_symbols) = symbols.get(start as usize) else {
        return Err(ClaimFault::NotFiled);
    };
    let Some(end_symbols) = symbols.get(end as usize) else {
        return Err(ClaimFault::NotFiled);
    };
    let limits = Limits {
        registers: 0,
        inputs,
        symbols: *start_symbols,
        tests: 0,
        stores: *end_symbols,
        ports: 0,
        states: 0,
    };
    let behind = substitution_end(&Reader { words, limits }, *end_symbols, 3)?;
    if behind != words.len() {
        return Err(ClaimFault::Malformed(behind));
    }
    Ok(Claim::Live {
        start,
        end,
        first,
        second,
    })
}

// The claim that words are, or their first fault. `inputs` counts the machines' inputs, `symbols` the symbols of each filed pair.
pub fn read_claim(inputs: u32, symbols: &[u32], words: &[u32]) -> Result<Claim, ClaimFault>
    ensures { told result ≡ the_claim (read_claim inputs symbols.now words.now) }
{
    let Some(first) = words.first() else {
        return Err(ClaimFault::Malformed(0));
    };
    let head = head_of(*first)?;
    let path = path_at(words, Kind::FirstPath, 1)?;
    match head {
        ClaimHead::Infeasible { start } => read_infeasible(symbols, words, start, path),
        ClaimHead::Live { start, end } => read_live(inputs, symbols, words, start, end, path),
    }
}
