// Rows read back, part by part, without copying a word.
ghost use Rattle.std.specs.Prelude.{◌≡◌, ◌<◌, ◌≤◌, [], length, drop, IfSome, IfNone};
ghost use Rattle.machine.specs.Reading.{cut, part_of, parts, transition_of, behind, table_row};
ghost use Rattle.machine.specs.Views.{seen, ahead, read, parts_cut, viewed, Encodes};

use crate::head::Head;
use crate::row::Row;
use crate::words::{Reader, next_end};
use expression::kind::Kind;
use expression::shape::split_of;
use expression::test::Test;
use expression::words::number_of;

// The words of an expression, and what the word behind them does with its value. A test has two expressions.
#[derive(Clone, Copy)]
pub enum Part<'a> {
    Store {
        register: u32,
        value: &'a [u32],
    },
    Emit {
        port: u32,
        value: &'a [u32],
    },
    Test {
        test: Test,
        left: &'a [u32],
        right: &'a [u32],
    },
    Goto {
        state: u32,
    },
}

// Where the second of the two expressions of a test begins.
fn cut_of(items: &[u32]) -> usize
    ensures cuts { result ≡ cut items.now }
    ensures within { result ≤ length items.now }
{
    split_of(items).unwrap_or(0)
}

fn part_of<'a>(items: &'a [u32], end: u32) -> Part<'a>
    ensures { seen result ≡ part_of items.now end }
{
    let n = number_of(end);
    match Kind::from(end) {
        Kind::Test => {
            let (left, right) = items.split_at(cut_of(items));
            Part::Test {
                test: Test::from(n),
                left,
                right,
            }
        }
        Kind::Store => Part::Store {
            register: n,
            value: items,
        },
        Kind::Emit => Part::Emit {
            port: n,
            value: items,
        },
        _ => Part::Goto { state: n },
    }
}

impl<'a> Row<'a> {
    // The next part of the row, if there is one.
    #[tactic(auto, using(crate::proofs::Places::parts_found))]
    pub fn next_part(&mut self) -> Option<Part<'a>>
        ensures parts { ahead self.old ≡ read result (ahead self.new) }
        ensures ended { IfNone result (self.new ≡ self.old) }
        ensures words { self.new.words ≡ self.old.words }
        ensures start { self.new.start ≡ self.old.start }
    {
        let words = self.words;
        let from = self.cursor;
        let end = next_end(words, from)?;
        self.cursor = end + 1;
        Some(part_of(&words[from..end], words[end]))
    }

    // Goes on behind the transition at the cursor; the state that it goes to.
    // No iterator: parts are read off the row, which goes on behind the last that was read.
    pub fn skip_transition(&mut self) -> u32
        ensures target { result ≡ (transition_of (ahead self.old)).target }
        ensures rest { ahead self.new ≡ behind (ahead self.old) }
        ensures words { self.new.words ≡ self.old.words }
        ensures start { self.new.start ≡ self.old.start }
    {
        while let Some(part) = self.next_part() {
            if let Part::Goto { state } = part {
                return state;
            }
        }
        0
    }
}

// The row of a state of the table with these words, if it is there.
fn find_row<'a>(words: &'a [u32], state: u32) -> Option<Row<'a>>
    ensures { viewed result ≡ table_row words.now state }
{
    let first = words.first()?;
    let head = Head::try_from(*first).ok()?;
    if state >= head.states {
        return None;
    }
    let reader = Reader {
        words,
        limits: head.limits(),
    };
    let start = reader.rows_end(state).ok()?;
    let end = reader.row_end(start).ok()?;
    Some(Row {
        words: &words[start..end],
        start,
        cursor: 0,
    })
}

// The row of a state; where the table is accepted its parts are that row of the machine, and a missing row reads as none.
pub fn row_of<'a>(words: &'a [u32], state: u32) -> Option<Row<'a>>
    ensures row { viewed result ≡ table_row words.now state }
    ensures encodes { Encodes words.now state result }
{
    find_row(words, state)
}
