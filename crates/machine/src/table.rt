// The reader: whether words are a table, judged word by word.
ghost use Rattle.std.specs.Prelude.{◌≡◌, ◌<◌, ◌≤◌, length, IfOk, IfSome, IfNone, if◌then◌else◌};
ghost use Rattle.machine.specs.Accepted.{told_counts};
ghost use Rattle.machine.specs.declared.table.TableFault.TheVariants as TableFault;
ghost use Rattle.machine.specs.Tables.{table_machine};
ghost use Rattle.machine.specs.Reading.{table_figures, told, of_words, fresh, acts, marked, transition, row, rows, table};

use crate::accepted::{State, Table};
use crate::head::{BadHead, Head};
use crate::refusal::Refusal;
use crate::words::{Reader, WordFault};
use expression::kind::Kind;
use expression::shape::{is_expression, split_of};
use expression::words::number_of;

// Why a table is refused, with the place of the word.
#[derive(Clone, Copy)]
pub enum TableFault {
    TooLong,
    Empty,
    BadHead,
    Forbidden(usize),
    EndsEarly(usize),
    LeftOver(usize),
}

impl From<WordFault> for TableFault {
    ghost from_gives = { λ f g. g ≡ of_words f };

    fn from(f: WordFault) -> TableFault {
        match f {
            WordFault::Forbidden(place) => TableFault::Forbidden(place),
            WordFault::EndsEarly(place) => TableFault::EndsEarly(place),
        }
    }
}

impl From<BadHead> for TableFault {
    ghost from_gives = { λ b f. f ≡ TableFault.BadHead };

    fn from(_: BadHead) -> TableFault {
        TableFault::BadHead
    }
}

impl Refusal for TableFault {
    ghost figures = { table_figures };

    fn number(self) -> u32 {
        match self {
            TableFault::BadHead => 1,
            TableFault::Forbidden(_) => 2,
            TableFault::TooLong
            | TableFault::Empty
            | TableFault::EndsEarly(_)
            | TableFault::LeftOver(_) => 3,
        }
    }

    // The word that is refused, or the first that is missing, left over or beyond the length.
    fn place(self) -> usize {
        match self {
            TableFault::TooLong => LONGEST,
            TableFault::Empty | TableFault::BadHead => 0,
            TableFault::Forbidden(place)
            | TableFault::EndsEarly(place)
            | TableFault::LeftOver(place) => place,
        }
    }
}

const LONGEST: usize = 2048;

const MOST_ACTIONS: usize = 8;

const MOST_REGISTERS: usize = 16;

// Whether `end` may end the action with this expression; a register that it stores is marked.
// No heap: the marks are an array, one for each register that there can be.
fn act(items: &[u32], end: u32, stored: &mut [bool; 16]) -> bool
    ensures answer { result ≡ acts items.now stored.old end }
    ensures marks { stored.new ≡ (if result then marked stored.old end else stored.old) }
{
    if !is_expression(items) {
        return false;
    }
    if !Kind::Store.is_of(end) {
        return Kind::Emit.is_of(end);
    }
    let register = number_of(end) as usize;
    if register < MOST_REGISTERS {
        if stored[register] {
            return false;
        }
        stored[register] = true;
    }
    true
}

impl Reader<'_> {
    // The place behind the transition that begins at `from`.
    // A loop that ends inside: a `for` over the actions would need a value behind it.
    fn transition_end(&self, from: usize) -> Result<usize, TableFault>
        requires { from ≤ length self.now.words.now }
        ensures reads { told result ≡ transition self.now.limits self.now.words.now 8 fresh from }
        ensures within { IfOk result (λ q. (from < q) × (q ≤ length self.now.words.now)) }
    {
        let words = self.words;
        let mut stored = [false; 16];
        let mut left: usize = MOST_ACTIONS;
        let mut p = from;
        'actions: loop {
            let q = self.ending_at(p)?;
            let end = words[q];
            if Kind::Goto.is_of(end) {
                return if p == q {
                    Ok(q + 1)
                } else {
                    Err(TableFault::Forbidden(q))
                };
            }
            if left == 0 || !act(&words[p..q], end, &mut stored) {
                return Err(TableFault::Forbidden(q));
            }
            left -= 1;
            p = q + 1;
        }
    }

    // The place behind the row that begins at `from`.
    pub(crate) fn row_end(&self, from: usize) -> Result<usize, TableFault>
        requires { from ≤ length self.now.words.now }
        ensures reads { told result ≡ row self.now.limits self.now.words.now from }
        ensures within { IfOk result (λ q. (from < q) × (q ≤ length self.now.words.now)) }
    {
        let words = self.words;
        let test = self.ending_at(from)?;
        if !Kind::Test.is_of(words[test]) {
            return self.transition_end(from);
        }
        if split_of(&words[from..test]).is_none() {
            return Err(TableFault::Forbidden(test));
        }
        let no = self.transition_end(test + 1)?;
        self.transition_end(no)
    }

    // The place behind the first `n` rows; the first stands behind the head.
    // By number: where a row begins is told by the one before it. Not one with `facts_end`: what is read and its fault are others.
    pub(crate) fn rows_end(&self, n: u32) -> Result<usize, TableFault>
        requires { 1 ≤ length self.now.words.now }
        ensures reads { told result ≡ rows self.now.limits self.now.words.now n }
        ensures within { IfOk result (λ q. (1 ≤ q) × (q ≤ length self.now.words.now)) }
    {
        let mut p = 1;
        for row in 0..n {
            p = self.row_end(p)?;
        }
        Ok(p)
    }
}

// The counts of an accepted table, or the first fault of its words.
pub fn read_table(words: &[u32]) -> Result<Head, TableFault>
    ensures { told result ≡ table words.now }
{
    if words.len() > LONGEST {
        return Err(TableFault::TooLong);
    }
    let Some(first) = words.first() else {
        return Err(TableFault::Empty);
    };
    let head = Head::try_from(*first)?;
    let reader = Reader {
        words,
        limits: head.limits(),
    };
    let end = reader.rows_end(head.states)?;
    if end < words.len() {
        return Err(TableFault::LeftOver(end));
    }
    Ok(head)
}

impl<'a> Table<'a> {
    // The table that words are, or their first fault.
    pub fn read(words: &'a [u32]) -> Result<Table<'a>, TableFault>
        ensures counts { told_counts result ≡ table words.now }
        ensures words { IfOk result (λ t. t.words.now ≡ words.now) }
    {
        let head = read_table(words)?;
        Ok(Table { words, head })
    }

    // The state with this number, if the table has it.
    pub fn state(self, number: u32) -> Option<State<'a>>
        ensures some { IfSome result (λ s. (s.table ≡ self.entry) × (s.number ≡ number)) }
        ensures none { IfNone result (length (table_machine self.entry.words.now).rows ≤ number) }
    {
        if number >= self.head.states {
            return None;
        }
        Some(State {
            table: self,
            number,
        })
    }
}
