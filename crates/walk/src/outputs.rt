// The outputs of a path.
ghost use Rattle.std.specs.Prelude.{◌≡◌, ◌+◌, ◌<◌, ◌≤◌, length, OnOk};
ghost use Rattle.expression.specs.Expressions.{items};
ghost use Rattle.workspace.specs.Views.{forms};
ghost use Rattle.walk.specs.Walk.{form_in_table};
ghost use Rattle.walk.specs.Seen.{kept_seen, outputs_seen, Appends, KeptBut};

use crate::bounded::Bounded;
use crate::side::Side;
use crate::working::work_out;
use domain::Domain;
use expression::shape::Expression;
use workspace::{OverLimits, Slots};

// The ports of at most sixteen outputs. The form of output j is kept in slot j of the outputs of its machine.
pub type Outputs = Bounded<u32, 16>;

const MOST_OUTPUTS: usize = 16;

// One more output.
pub fn append_output<D: Domain>(
    slots: &mut Slots<'_, D>,
    outputs: &mut Outputs,
    side: Side,
    port: u32,
    value: Expression<'_>,
) -> Result<(), OverLimits>
    ensures appended { Appends result (form_in_table D.ops (kept_seen (forms slots.old) side.registers.first side.registers.count) (items value.entry)) port (outputs_seen outputs.old.items (forms slots.old) side.outputs outputs.old.count) (outputs_seen outputs.new.items (forms slots.new) side.outputs outputs.new.count) }
    ensures kept { OnOk result ((outputs.old.count < 16) × KeptBut (side.outputs + outputs.old.count) (forms slots.old) (forms slots.new)) }
{
    if outputs.count >= MOST_OUTPUTS {
        return Err(OverLimits);
    }
    work_out(slots, side.registers, value, side.outputs + outputs.count)?;
    outputs.push(port);
    Ok(())
}
