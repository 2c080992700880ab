// Which words may stand where: one rule for tables, pairs and claims.
ghost use Rattle.std.specs.Prelude.{◌≡◌, ◌<◌, ◌≤◌, length, drop, IfOk};
ghost use Rattle.machine.specs.Words.{bound, legal, ends, ending, word_told, FirstEnd};

use expression::kind::{Kind, NUMBERS};
use expression::words::number_of;

// How many numbers each kind of word has where it is read; a kind that may not stand there has none.
#[derive(Clone, Copy)]
pub struct Limits {
    pub registers: u32,
    pub inputs: u32,
    pub symbols: u32,
    pub tests: u32,
    pub stores: u32,
    pub ports: u32,
    pub states: u32,
}

// Why a row of words has no end, with the place: a word that may not stand there, or no more words.
#[derive(Clone, Copy)]
pub enum WordFault {
    Forbidden(usize),
    EndsEarly(usize),
}

const CONSTANTS: u32 = 1 << 28;

const OPERATIONS: u32 = 4;

// Words, and what may stand in them.
#[derive(Clone, Copy)]
pub struct Reader<'a> {
    pub words: &'a [u32],
    pub limits: Limits,
}

impl Limits {
    // How many numbers words of a kind may have.
    // The kind by its number: it answers for any number, and a `Kind` would ask more of callers.
    pub fn bound_of(&self, kind: u32) -> u32
        ensures { result ≡ bound self.now kind }
    {
        match kind {
            1 => CONSTANTS,
            2 => self.registers,
            3 => self.inputs,
            4 => self.symbols,
            5 => OPERATIONS,
            6 => self.tests,
            7 => self.stores,
            8 => self.ports,
            9 => self.states,
            _ => 0,
        }
    }

    // Whether a word may stand here.
    pub fn allows(&self, word: u32) -> bool
        ensures { result ≡ legal self.now word }
    {
        number_of(word) < self.bound_of(word / NUMBERS)
    }
}

// Whether a word ends what stands before it, as a test, store, emit or go-to does.
pub fn is_end(word: u32) -> bool
    ensures { result ≡ ends word }
{
    Kind::from(word) >= Kind::Test
}

// The place of the first word, from `from` on, that ends what stands before it.
pub fn next_end(words: &[u32], from: usize) -> Option<usize>
    ensures { FirstEnd words.now from result }
{
    (from..words.len()).find(|i| is_end(words[*i]))
}

impl Reader<'_> {
    // The place of the word that ends what begins at `from`.
    // No `find`: whether the word found may stand would be asked again.
    #[tactic(auto, using(crate::proofs::Places::ending_found, crate::proofs::Places::ending_none))]
    pub fn ending_at(&self, from: usize) -> Result<usize, WordFault>
        ensures reads { word_told result ≡ ending self.now.limits from (drop from self.now.words.now) }
        ensures within { IfOk result (λ q. (from ≤ q) × (q < length self.now.words.now)) }
    {
        let words = self.words;
        for place in from..words.len() {
            if !self.limits.allows(words[place]) {
                return Err(WordFault::Forbidden(place));
            }
            if is_end(words[place]) {
                return Ok(place);
            }
        }
        Err(WordFault::EndsEarly(from.max(words.len())))
    }
}
