// A transition taken: its expressions are read first, and then its stores are made together.
// Slots, known tests and outputs are lent one by one: each has an owner of its own.
ghost use Rattle.std.specs.Prelude.{◌≡◌, IfOk, OnOk};
ghost use Rattle.machine.specs.Reading.{transition_of};
ghost use Rattle.machine.specs.Views.{ahead};
ghost use Rattle.workspace.specs.Slots.{told};
ghost use Rattle.workspace.specs.Views.{forms};
ghost use Rattle.walk.specs.Walk.{form_in_table};
ghost use Rattle.walk.specs.Seen.{kept_seen, KeptBeside, KeptApart};
ghost use Rattle.walk.specs.Taking.{Readable, held_seen, acted_seen, acted};

use crate::outputs::{Outputs, append_output};
use crate::pending::{Pending, commit, hold_store};
use crate::side::Side;
use domain::Domain;
use expression::shape::Expression;
use machine::row::Row;
use machine::view::Part;
use workspace::{OverLimits, Slots};

// Reads the actions of the transition at the cursor: stores wait, outputs are appended. The state that it goes to.
// No iterator: parts are read off the row, which goes on behind the last that was read.
fn hold_actions<D: Domain>(
    slots: &mut Slots<'_, D>,
    row: &mut Row<'_>,
    side: Side,
    pending: &mut Pending,
    outputs: &mut Outputs,
) -> Result<u32, OverLimits>
    requires readable { Readable pending.old.count (transition_of (ahead row.old)) }
    ensures held { told result (held_seen side pending.new outputs.new (kept_seen (forms slots.old) side.registers.first side.registers.count) (forms slots.new)) ≡ acted D.ops (form_in_table D.ops (kept_seen (forms slots.old) side.registers.first side.registers.count)) (transition_of (ahead row.old)).actions (held_seen side pending.old outputs.old (kept_seen (forms slots.old) side.registers.first side.registers.count) (forms slots.old)) }
    ensures target { IfOk result (λ s. s ≡ (transition_of (ahead row.old)).target) }
    ensures kept { OnOk result (KeptBeside side (forms slots.old) (forms slots.new)) }
{
    while let Some(part) = row.next_part() {
        match part {
            Part::Store { register, value } => {
                let value = Expression { words: value };
                hold_store(slots, pending, side.registers, register, value)?
            }
            Part::Emit { port, value } => {
                let value = Expression { words: value };
                append_output(slots, outputs, side, port, value)?
            }
            Part::Test { .. } => {}
            Part::Goto { state } => return Ok(state),
        }
    }
    Ok(0)
}

// Takes the transition at the cursor: its stores are made together, behind its last expression. The state that it goes to.
pub fn take_transition<D: Domain>(
    slots: &mut Slots<'_, D>,
    row: &mut Row<'_>,
    side: Side,
    outputs: &mut Outputs,
) -> Result<u32, OverLimits>
    requires readable { Readable 0 (transition_of (ahead row.old)) }
    ensures acted { told result (acted_seen side outputs.new (forms slots.new)) ≡ acted D.ops (form_in_table D.ops (kept_seen (forms slots.old) side.registers.first side.registers.count)) (transition_of (ahead row.old)).actions (acted_seen side outputs.old (forms slots.old)) }
    ensures target { IfOk result (λ s. s ≡ (transition_of (ahead row.old)).target) }
    ensures kept { OnOk result (KeptApart side (forms slots.old) (forms slots.new)) }
{
    let mut pending = Pending::empty(0);
    let state = hold_actions(slots, row, side, &mut pending, outputs)?;
    commit(slots, &pending, side.registers);
    Ok(state)
}
