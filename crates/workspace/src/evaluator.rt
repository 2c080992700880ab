// Expressions worked out to forms, on a stack of slots.
// Slots, leaves and the expression are handed on one by one: what leaves stand for changes from call to call.
ghost use Rattle.std.specs.Prelude.{◌≡◌, ◌+◌, ◌-◌, ◌<◌, [], slice_index_or};
ghost use Rattle.expression.specs.Words.{takes};
ghost use Rattle.expression.specs.Expressions.{items};
ghost use Rattle.expression.specs.Run as Run;
ghost use Rattle.workspace.specs.Layout.{stack_at};
ghost use Rattle.workspace.specs.Slots.{told, give};
ghost use Rattle.workspace.specs.Views.{forms, named, below_stack};
ghost use Rattle.workspace.specs.Evaluation.{reading, stack, Stands};

use crate::layout::STACK;
use crate::leaves::{Leaves, Symbols};
use crate::limits::OverLimits;
use crate::slots::Slots;
use domain::Domain;
use expression::item::Item;
use expression::shape::Expression;

// Works one item on the stack of `depth` values.
fn apply<D: Domain>(
    slots: &mut Slots<'_, D>,
    leaves: Leaves,
    item: Item,
    depth: usize,
) -> Result<(), OverLimits>
    requires stands { Stands depth item }
    ensures kept { told result (below_stack (forms slots.new)) ≡ told result (below_stack (forms slots.old)) }
    ensures stack { told result (stack (depth - takes item + 1) (forms slots.new)) ≡ Run.step (reading D.ops leaves (named (forms slots.old))) item (stack depth (forms slots.old)) }
{
    let top = STACK + depth;
    match item {
        Item::Constant(n) => slots.constant(n, top),
        Item::Register(n) => return slots.read(leaves.registers, n, top),
        Item::Input(n) => return slots.input(n, top),
        Item::Symbol(n) => match leaves.symbols {
            Symbols::Own => return slots.symbol(n, top),
            Symbols::Kept(group) => return slots.read(group, n, top),
        },
        Item::Sum => return slots.sum(top - 2, top - 1, top - 2),
        Item::Difference => return slots.difference(top - 2, top - 1, top - 2),
        Item::Product => return slots.product(top - 2, top - 1, top - 2),
        Item::Negation => slots.negation(top - 1, top - 1),
    }
    Ok(())
}

// Works out an expression; its form is left in the slot at the bottom of the stack.
pub fn evaluate<D: Domain>(
    slots: &mut Slots<'_, D>,
    leaves: Leaves,
    expression: Expression<'_>,
) -> Result<(), OverLimits>
    ensures kept { told result (below_stack (forms slots.new)) ≡ told result (below_stack (forms slots.old)) }
    ensures value { told result (slice_index_or (forms slots.new) stack_at []) ≡ Run.meaning (reading D.ops leaves (named (forms slots.old))) (items expression.entry) }
{
    let mut depth: usize = 0;
    for w in expression.words {
        let item = Item::from(*w);
        apply(slots, leaves, item, depth)?;
        depth = depth - item.taken() + 1;
    }
    Ok(())
}

// Works out an expression into a slot below the stack.
pub fn evaluate_into<D: Domain>(
    slots: &mut Slots<'_, D>,
    leaves: Leaves,
    expression: Expression<'_>,
    to: usize,
) -> Result<(), OverLimits>
    requires slot { to < stack_at }
    ensures forms { told result (below_stack (forms slots.new)) ≡ give to (Run.meaning (reading D.ops leaves (named (forms slots.old))) (items expression.entry)) (below_stack (forms slots.old)) }
{
    evaluate(slots, leaves, expression)?;
    slots.copy(STACK, to);
    Ok(())
}
