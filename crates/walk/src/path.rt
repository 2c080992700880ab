// A path followed from a state, step by step.
ghost use Rattle.std.specs.Prelude.{◌≡◌, ◌+◌, ◌≤◌, length, IfOk, OnOk};
ghost use Rattle.workspace.specs.Views.{forms};
ghost use Rattle.walk.specs.Walk.{walk, learn};
ghost use Rattle.walk.specs.Seen.{KeptApart, known_seen};
ghost use Rattle.machine.specs.Tables.{IsTable, There, table_machine};
ghost use Rattle.walk.specs.Taking.{track_seen, told_over, reached_seen, SettledWalk, KeptOtherSide};

use crate::fault::WalkFault;
use crate::known::KnownTests;
use crate::outputs::Outputs;
use crate::side::Side;
use crate::steps::{learn_step, settled_step};
use domain::Domain;
use machine::accepted::State;
use workspace::{OverLimits, Slots};

// Follows a path of the first machine: each test becomes known with the turn taken. The state at its end.
// Not one with `follow_settled`: their steps differ, and a rule handed in would be a third contract.
// Slots, known tests and outputs are lent one by one: they have different owners, and every body would take a struct of them apart.
pub fn follow<'a, D: Domain>(
    slots: &mut Slots<'_, D>,
    side: Side,
    start: State<'a>,
    path: &[bool],
    known: &mut KnownTests,
    outputs: &mut Outputs,
) -> Result<State<'a>, OverLimits>
    requires { known.old.count + length path.now ≤ 24 }
    ensures walks { told_over result (λ s. track_seen side s.number known.new outputs.new (forms slots.new)) ≡ walk D.ops (learn D.ops) (table_machine start.entry.table.words.now) 0 path.now (track_seen side start.entry.number known.old outputs.old (forms slots.old)) }
    ensures kept { OnOk result (KeptOtherSide side (forms slots.old) (forms slots.new)) }
    ensures table { IfOk result (λ s. s.table ≡ start.entry.table) }
{
    let mut state = start;
    for turn in path {
        state = learn_step(slots, side, state, *turn, known, outputs)?;
    }
    Ok(state)
}

// Follows a path of the second machine: each turn must be settled by what is known. The state at its end.
pub fn follow_settled<'a, D: Domain>(
    slots: &mut Slots<'_, D>,
    side: Side,
    start: State<'a>,
    path: &[bool],
    known: &KnownTests,
    outputs: &mut Outputs,
) -> Result<State<'a>, WalkFault>
    ensures walks { SettledWalk D.ops (known_seen known.now.items (forms slots.old) 0 known.now.count) (table_machine start.entry.table.words.now) 0 path.now result (reached_seen side start.entry.number outputs.old (forms slots.old)) (λ s. reached_seen side s.number outputs.new (forms slots.new)) }
    ensures kept { OnOk result (KeptApart side (forms slots.old) (forms slots.new)) }
    ensures table { IfOk result (λ s. s.table ≡ start.entry.table) }
{
    let mut state = start;
    for (index, turn) in path.iter().enumerate() {
        state = settled_step(slots, side, state, *turn, index, known, outputs)?;
    }
    Ok(state)
}
