// A row of terms that the caller lends, with a level; work is done above the level.
ghost use Rattle.std.specs.Prelude.{◌≡◌, ◌+◌, ◌≤◌, length, take};
ghost use Rattle.expression.specs.Expressions.{items};
ghost use Rattle.expression.specs.Run as Run;
ghost use Rattle.workspace.specs.Layout.{left_at, terms_lent};
ghost use Rattle.workspace.specs.Slots.{told};
ghost use Rattle.workspace.specs.Views.{forms, named};
ghost use Rattle.workspace.specs.Evaluation.{reading};
ghost use Rattle.workspace.specs.Comparison.{answered, compared, one_form, Judged};

use crate::evaluator::evaluate_into;
use crate::layout::{LEFT, RIGHT, ROOM};
use crate::leaves::Leaves;
use crate::lengths::Lengths;
use crate::level::{Held, Level};
use crate::limits::OverLimits;
use crate::slots::Slots;
use domain::Domain;
use expression::shape::Expression;
use forms::Term;

#[derive(Drop)]
pub struct Workspace<'a, D> {
    pub row: &'a mut [Term<D>],
    pub level: Level,
}

// Whether two expressions have one form, where the leaves stand for forms in the slots.
// (An expression and what its leaves stand for change from call to call.)
pub fn compare_forms<D: Domain>(
    slots: &mut Slots<'_, D>,
    leaves: Leaves,
    left: Expression<'_>,
    right: Expression<'_>,
) -> Result<bool, OverLimits>
    ensures kept { told result (take left_at (forms slots.new)) ≡ told result (take left_at (forms slots.old)) }
    ensures answer { answered result ≡ compared D.ops (Run.meaning (reading D.ops leaves (named (forms slots.old))) (items left.entry)) (Run.meaning (reading D.ops leaves (named (forms slots.old))) (items right.entry)) }
{
    evaluate_into(slots, leaves, left, LEFT)?;
    evaluate_into(slots, leaves, right, RIGHT)?;
    Ok(slots.same(LEFT, RIGHT))
}

// The same of two expressions over inputs and symbols, in the terms from `at` on.
fn compare_from<D: Domain>(
    row: &mut [Term<D>],
    at: usize,
    left: Expression<'_>,
    right: Expression<'_>,
) -> Result<bool, OverLimits>
    requires room { at + terms_lent ≤ length row.old }
    ensures kept { take at row.new ≡ take at row.old }
    ensures long { length row.new ≡ length row.old }
    ensures answer { answered result ≡ one_form D.ops (items left.entry) (items right.entry) }
    ensures polynomials { Judged D.ops result (items left.entry) (items right.entry) }
{
    let mut slots = Slots {
        row: &mut row[at..],
        lens: Lengths::empty(),
    };
    compare_forms(&mut slots, Leaves::own(), left, right)
}

impl<D: Domain> Workspace<'_, D> {
    // Whether two expressions over inputs and symbols have one form.
    pub fn compare(
        &mut self,
        left: Expression<'_>,
        right: Expression<'_>,
    ) -> Result<bool, OverLimits>
        requires room { self.old.level.at + terms_lent ≤ length self.old.row.now }
        ensures level { self.new.level ≡ self.old.level }
        ensures kept { take self.old.level.at self.new.row.now ≡ take self.old.level.at self.old.row.now }
        ensures long { length self.new.row.now ≡ length self.old.row.now }
        ensures answer { answered result ≡ one_form D.ops (items left.entry) (items right.entry) }
        ensures polynomials { Judged D.ops result (items left.entry) (items right.entry) }
        ensures lender { self.new.row.ghost_name ≡ self.old.row.ghost_name }
    {
        let Workspace { row, level } = self;
        let old = *level;
        let held = Held { level, old };
        held.level.at = old.at + ROOM;
        compare_from(row, old.at, left, right)
    }
}
