// Going through the words of a pair or claim that was read, expression by expression and fact by fact.
// The words stay and the place goes on, so they are handed on apart.
ghost use Rattle.std.specs.Prelude.{◌≡◌, ◌≤◌, drop};
ghost use Rattle.proposal.specs.Cursors.{next_end, CutsStored, fact_places, CutsFact};

use expression::shape::split_of;
use expression::test::Test;
use expression::words::number_of;
use machine::words::next_end;

// A fact in words: where its second expression begins, where its test stands, and that test with its answer.
// (An answer is a bool: yes or no is the value itself.)
#[derive(Clone, Copy)]
pub struct FactAt {
    pub cut: usize,
    pub end: usize,
    pub test: Test,
    pub says: bool,
}

// The place of the next word that ends something, from `from` on, or the place behind them all.
fn end_from(words: &[u32], from: usize) -> usize
    ensures place { result ≡ next_end from (drop from words.now) }
    ensures after { from ≤ result }
{
    next_end(words, from).unwrap_or(from.max(words.len()))
}

// The place of the store that ends the expression at `from`.
pub fn expression_end(words: &[u32], from: usize) -> usize
    ensures place { result ≡ next_end from (drop from words.now) }
    ensures cuts { CutsStored words.now from result }
{
    end_from(words, from)
}

// The places of the fact at `from`; without a test behind it, those of an empty one.
fn find_fact(words: &[u32], from: usize) -> FactAt
    ensures { result ≡ fact_places words.now from (next_end from (drop from words.now)) }
{
    let end = end_from(words, from);
    if end >= words.len() {
        return FactAt {
            cut: from,
            end,
            test: Test::Same,
            says: false,
        };
    }
    let cut = from + split_of(&words[from..end]).unwrap_or(0);
    let number = number_of(words[end]);
    FactAt {
        cut,
        end,
        test: Test::from(number),
        says: number / 2 == 1,
    }
}

// The fact at `from`.
pub fn fact_at(words: &[u32], from: usize) -> FactAt
    ensures place { result ≡ fact_places words.now from (next_end from (drop from words.now)) }
    ensures cuts { CutsFact words.now from result }
{
    find_fact(words, from)
}
