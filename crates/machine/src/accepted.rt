// Tables that were accepted, and their states.
ghost use Rattle.std.specs.Prelude.{◌≡◌};
ghost use Rattle.machine.specs.Answer.{good};
ghost use Rattle.machine.specs.Reading.{table};
ghost use Rattle.machine.specs.Tables.{There};

use crate::head::Head;

// The words of an accepted table, and its counts.
#[derive(Clone, Copy)]
pub struct Table<'a> {
    pub words: &'a [u32],
    pub head: Head,
    ghost accepted: { table words.now ≡ good head },
}

// A state of an accepted table.
#[derive(Clone, Copy)]
pub struct State<'a> {
    pub table: Table<'a>,
    pub number: u32,
    ghost there: { There table.words.now number },
}
