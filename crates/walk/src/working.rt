// Expressions of a table, worked out over the forms of its registers.
ghost use Rattle.std.specs.Prelude.{◌≡◌, ◌<◌, [], OnOk, slice_index_or};
ghost use Rattle.expression.specs.Expressions.{items};
ghost use Rattle.workspace.specs.Layout.{stack_at};
ghost use Rattle.workspace.specs.Slots.{told};
ghost use Rattle.workspace.specs.Views.{forms};
ghost use Rattle.walk.specs.Walk.{form_in_table};
ghost use Rattle.walk.specs.Seen.{kept_seen, table_leaves, KeptBut};

use domain::Domain;
use expression::shape::Expression;
use workspace::{Group, Leaves, OverLimits, Slots, Symbols, evaluate_into};

// What an expression of a table reads: registers in a group of slots, and no symbols.
fn table_leaves(registers: Group) -> Leaves
    ensures { result ≡ table_leaves registers }
{
    Leaves {
        registers,
        symbols: Symbols::Kept(Group::none()),
    }
}

// Slot `to` gets the form of an expression; the other slots below the stack are kept.
// Not one with that of `rules`: both are one call of `evaluate_into`, and what differs is the definition that the clause names.
pub fn work_out<D: Domain>(
    slots: &mut Slots<'_, D>,
    registers: Group,
    expression: Expression<'_>,
    to: usize,
) -> Result<(), OverLimits>
    requires slot { to < stack_at }
    ensures value { told result (slice_index_or (forms slots.new) to []) ≡ form_in_table D.ops (kept_seen (forms slots.old) registers.first registers.count) (items expression.entry) }
    ensures kept { OnOk result (KeptBut to (forms slots.old) (forms slots.new)) }
{
    evaluate_into(slots, table_leaves(registers), expression, to)
}
