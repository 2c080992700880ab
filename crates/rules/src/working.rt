// Expressions of a proposal, worked out over forms of their symbols.
ghost use Rattle.std.specs.Prelude.{◌≡◌, ◌<◌, [], OnOk, slice_index_or};
ghost use Rattle.expression.specs.Expressions.{items};
ghost use Rattle.workspace.specs.Layout.{stack_at};
ghost use Rattle.workspace.specs.Slots.{told};
ghost use Rattle.workspace.specs.Views.{forms};
ghost use Rattle.walk.specs.Seen.{KeptBut};
ghost use Rattle.correspondence.specs.Judgement.{form_in_proposal};
ghost use Rattle.rules.specs.Seen.{proposal_leaves, symbols_seen};

use domain::Domain;
use expression::shape::Expression;
use workspace::{Group, Leaves, OverLimits, Slots, Symbols, evaluate_into};

// What an expression of a proposal reads: no registers, and symbols as said.
fn proposal_leaves(symbols: Symbols) -> Leaves
    ensures { result ≡ proposal_leaves symbols }
{
    Leaves {
        registers: Group::none(),
        symbols,
    }
}

// Slot `to` gets the form of an expression; the other slots below the stack are kept.
// Not one with that of `walk`: both are one call of `evaluate_into`, and what differs is the definition that the clause names.
pub fn work_out<D: Domain>(
    slots: &mut Slots<'_, D>,
    symbols: Symbols,
    expression: Expression<'_>,
    to: usize,
) -> Result<(), OverLimits>
    requires slot { to < stack_at }
    ensures value { told result (slice_index_or (forms slots.new) to []) ≡ form_in_proposal D.ops (symbols_seen D.ops symbols (forms slots.old)) (items expression.entry) }
    ensures kept { OnOk result (KeptBut to (forms slots.old) (forms slots.new)) }
{
    evaluate_into(slots, proposal_leaves(symbols), expression, to)
}
