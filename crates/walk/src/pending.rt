// The stores of a step, which wait until its last expression is read.
ghost use Rattle.std.specs.Prelude.{◌≡◌, ℕ, ◌+◌, ◌<◌, ◌≤◌, ◌⊎◌, [], length, OnOk, slice_index_or, slice_set};
ghost use Rattle.expression.specs.Expressions.{items};
ghost use Rattle.workspace.specs.Layout.{slot_count};
ghost use Rattle.workspace.specs.Views.{forms};
ghost use Rattle.walk.specs.Walk.{form_in_table};
ghost use Rattle.walk.specs.Seen.{kept_seen, stored_seen, Waits, KeptNamed, KeptOutside};

use crate::bounded::Bounded;
use crate::working::work_out;
use domain::Domain;
use expression::shape::Expression;
use workspace::layout::PENDING;
use workspace::{Group, OverLimits, Slots};

// The registers of at most eight stores. The form for store j is kept in slot PENDING + j.
pub type Pending = Bounded<u32, 8>;

// One more store waits.
pub fn hold_store<D: Domain>(
    slots: &mut Slots<'_, D>,
    pending: &mut Pending,
    registers: Group,
    register: u32,
    value: Expression<'_>,
) -> Result<(), OverLimits>
    requires room { pending.old.count < 8 }
    ensures held { Waits result (form_in_table D.ops (kept_seen (forms slots.old) registers.first registers.count) (items value.entry)) register (stored_seen pending.old.items (forms slots.old) pending.old.count) (stored_seen pending.new.items (forms slots.new) pending.new.count) }
    ensures count { OnOk result (pending.new.count ≡ pending.old.count + 1) }
    ensures kept { OnOk result (KeptNamed (forms slots.old) (forms slots.new)) }
{
    work_out(slots, registers, value, PENDING + pending.count)?;
    pending.push(register);
    Ok(())
}

// A register gets the form of a slot; one that is not there gets nothing.
fn store_form<D: Domain>(slots: &mut Slots<'_, D>, registers: Group, register: u32, from: usize)
    requires slot { from < slot_count }
    ensures stored { kept_seen (forms slots.new) registers.first registers.count ≡ slice_set (kept_seen (forms slots.old) registers.first registers.count) register (slice_index_or (forms slots.old) from []) }
    ensures kept { KeptOutside registers (forms slots.old) (forms slots.new) }
{
    if register < registers.count {
        slots.copy(from, registers.first + register as usize);
    }
}

// The stores that wait take effect.
pub fn commit<D: Domain>(slots: &mut Slots<'_, D>, pending: &Pending, registers: Group)
    ensures stored { kept_seen (forms slots.new) registers.first registers.count ≡ stored_seen pending.now.items (forms slots.old) pending.now.count (kept_seen (forms slots.old) registers.first registers.count) }
    ensures kept { KeptOutside registers (forms slots.old) (forms slots.new) }
{
    for (j, register) in pending.as_slice().iter().enumerate() {
        store_form(slots, registers, *register, PENDING + j);
    }
}
