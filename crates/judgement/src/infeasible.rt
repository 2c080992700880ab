// Paths that the first machine never takes.
// Slots, known tests and outputs are lent one by one: each has an owner of its own.
ghost use Rattle.std.specs.Prelude.{◌≡◌, ◌+◌, ◌≤◌, length};
ghost use Rattle.machine.specs.Machine.{row_at};
ghost use Rattle.workspace.specs.Views.{forms};
ghost use Rattle.machine.specs.Tables.{table_machine};
ghost use Rattle.walk.specs.Taking.{track_seen};
ghost use Rattle.correspondence.specs.Judgement.{other_settled, never_taken};
ghost use Rattle.judgement.specs.Faults.{told_rule};

use crate::fault::RuleFault;
use domain::Domain;
use machine::accepted::State;
use walk::known::{KnownTests, Noted};
use walk::outputs::Outputs;
use walk::path::follow;
use walk::settling::is_settled;
use walk::side::Side;
use walk::steps::row_there;
use walk::testing::put_test;
use workspace::Slots;

// Whether the step from a state is at a test whose other answer is settled; its actions are not worked out.
// (A turn is a bool: yes or no is the value itself.)
fn check_other<D: Domain>(
    slots: &mut Slots<'_, D>,
    side: Side,
    state: State<'_>,
    turn: bool,
    known: &KnownTests,
    outputs: &Outputs,
) -> Result<(), RuleFault>
    ensures { told_rule result ≡ other_settled D.ops (row_at (table_machine state.entry.table.words.now) state.entry.number) turn (track_seen side state.entry.number known.now outputs.now (forms slots.old)) }
{
    let mut row = row_there(state);
    let Some(test) = put_test(slots, &mut row, side.registers, !turn)? else {
        return Err(RuleFault::NotInfeasible);
    };
    if !is_settled(slots, known, Noted { test, says: !turn }) {
        return Err(RuleFault::NotInfeasible);
    }
    Ok(())
}

// Checks that a path of the first machine is infeasible: it is followed up to its last step, whose other answer must be settled by what is known then.
pub fn check_infeasible<D: Domain>(
    slots: &mut Slots<'_, D>,
    side: Side,
    start: State<'_>,
    path: &[bool],
    known: &mut KnownTests,
    outputs: &mut Outputs,
) -> Result<(), RuleFault>
    requires { known.old.count + length path.now ≤ 24 }
    ensures { told_rule result ≡ never_taken D.ops (table_machine start.entry.table.words.now) path.now (track_seen side start.entry.number known.old outputs.old (forms slots.old)) }
{
    let Some((last, front)) = path.split_last() else {
        return Err(RuleFault::NotInfeasible);
    };
    let state = follow(slots, side, start, front, known, outputs)?;
    check_other(slots, side, state, *last, known, outputs)
}
