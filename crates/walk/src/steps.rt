// One step of a path.
// Slots, known tests and outputs are lent one by one: each has an owner of its own.
ghost use Rattle.std.specs.Prelude.{◌≡◌, ◌+◌, ◌<◌, ◌≤◌, IfOk, OnOk};
ghost use Rattle.machine.specs.Answer.{good};
ghost use Rattle.machine.specs.Machine.{row_at};
ghost use Rattle.machine.specs.Reading.{row_of};
ghost use Rattle.machine.specs.Views.{ahead};
ghost use Rattle.workspace.specs.Views.{forms};
ghost use Rattle.walk.specs.Walk.{step};
ghost use Rattle.walk.specs.Seen.{known_seen, KeptApart};
ghost use Rattle.machine.specs.Tables.{IsTable, There, GoesThere, table_machine};
ghost use Rattle.walk.specs.Taking.{ReadableRow, track_seen, told_over, reached_seen, SettledStep, KeptOtherSide};

use crate::fault::WalkFault;
use crate::known::KnownTests;
use crate::learning::{is_put_settled, learn_put};
use crate::outputs::Outputs;
use crate::side::Side;
use crate::taking::take_transition;
use crate::testing::put_test;
use domain::Domain;
use machine::accepted::State;
use machine::row::Row;
use machine::view::row_of;
use workspace::{OverLimits, Slots};

// The row of a state that is there.
pub fn row_there<'a>(state: State<'a>) -> Row<'a>
    ensures row { row_of (ahead result) ≡ row_at (table_machine state.entry.table.words.now) state.entry.number }
    ensures readable { ReadableRow (row_of (ahead result)) }
    ensures targets { GoesThere state.entry.table.words.now (row_of (ahead result)) }
{
    row_of(state.table.words, state.number).unwrap()
}

// A step of the first machine: a test becomes known with the turn taken. The state that it goes to.
// Not one with `settled_step`: they differ in what becomes of a test, in the error, and in what they promise of the known tests.
pub fn learn_step<'a, D: Domain>(
    slots: &mut Slots<'_, D>,
    side: Side,
    state: State<'a>,
    turn: bool,
    known: &mut KnownTests,
    outputs: &mut Outputs,
) -> Result<State<'a>, OverLimits>
    requires { known.old.count < 24 }
    ensures steps { told_over result (λ s. track_seen side s.number known.new outputs.new (forms slots.new)) ≡ step D.ops (λ tests. good tt) (row_at (table_machine state.entry.table.words.now) state.entry.number) turn (track_seen side state.entry.number known.old outputs.old (forms slots.old)) }
    ensures table { IfOk result (λ s. s.table ≡ state.entry.table) }
    ensures count { OnOk result (known.new.count ≤ known.old.count + 1) }
    ensures kept { OnOk result (KeptOtherSide side (forms slots.old) (forms slots.new)) }
{
    let mut row = row_there(state);
    let test = put_test(slots, &mut row, side.registers, turn)?;
    learn_put(slots, known, test, turn);
    let number = take_transition(slots, &mut row, side, outputs)?;
    Ok(State {
        table: state.table,
        number,
    })
}

// Step `index` of the second machine: its turn must be settled by what is known. The state that it goes to.
pub fn settled_step<'a, D: Domain>(
    slots: &mut Slots<'_, D>,
    side: Side,
    state: State<'a>,
    turn: bool,
    index: usize,
    known: &KnownTests,
    outputs: &mut Outputs,
) -> Result<State<'a>, WalkFault>
    ensures steps { SettledStep D.ops (known_seen known.now.items (forms slots.old) 0 known.now.count) index (row_at (table_machine state.entry.table.words.now) state.entry.number) turn result (reached_seen side state.entry.number outputs.old (forms slots.old)) (λ s. reached_seen side s.number outputs.new (forms slots.new)) }
    ensures table { IfOk result (λ s. s.table ≡ state.entry.table) }
    ensures kept { OnOk result (KeptApart side (forms slots.old) (forms slots.new)) }
{
    let mut row = row_there(state);
    let test = put_test(slots, &mut row, side.registers, turn)?;
    if !is_put_settled(slots, known, test, turn) {
        return Err(WalkFault::Unsettled(index));
    }
    let number = take_transition(slots, &mut row, side, outputs)?;
    Ok(State {
        table: state.table,
        number,
    })
}
