// Whether a path is possible, before any value is worked out.
ghost use Rattle.std.specs.Prelude.{◌≡◌, ◌&&◌, IfSome, ◌==◌, nat_lt};
ghost use Rattle.machine.specs.Machine.{row_at};
ghost use Rattle.machine.specs.Reading.{row_of};
ghost use Rattle.machine.specs.Views.{ahead};
ghost use Rattle.machine.specs.Tables.{table_machine};
ghost use Rattle.walk.specs.Taking.{numbered, allowed_target, InOrder};

use crate::steps::row_there;
use crate::testing::choose;
use machine::accepted::State;
use machine::row::Row;
use machine::view::Part;

// The state that a turn leads to from a row, if the row has that turn.
fn target_of(row: Row<'_>, turn: bool) -> Option<u32>
    ensures { result ≡ allowed_target (row_of (ahead row.entry)) turn }
{
    let mut behind = row;
    if let Some(Part::Test { .. }) = behind.next_part() {
        choose(&mut behind, turn);
        return Some(behind.skip_transition());
    }
    if !turn {
        return None;
    }
    let mut only = row;
    Some(only.skip_transition())
}

// The same from a state.
pub fn step_target(state: State<'_>, turn: bool) -> Option<State<'_>>
    ensures target { numbered result ≡ allowed_target (row_at (table_machine state.entry.table.words.now) state.entry.number) turn }
    ensures table { IfSome result (λ s. s.table ≡ state.entry.table) }
{
    let number = target_of(row_there(state), turn)?;
    Some(State {
        table: state.table,
        number,
    })
}

// The first step of a path that is impossible.
#[derive(Clone, Copy, PartialEq, Eq)]
pub struct ImpossibleStep {
    pub step: usize,
}

// Whether a step into state 0 has another behind it.
fn resets_early(target: u32, next: usize, length: usize) -> bool
    ensures { result ≡ (target == 0 && nat_lt next length) }
{
    target == 0 && next < length
}

// Checks a path: no turn no at a straight row, and no step into state 0 before the last. The first step that is impossible is told.
pub fn check_order(start: State<'_>, path: &[bool]) -> Result<(), ImpossibleStep>
    ensures { InOrder (table_machine start.entry.table.words.now) start.entry.number path.now result }
{
    let mut state = start;
    for (index, turn) in path.iter().enumerate() {
        let Some(target) = step_target(state, *turn) else {
            return Err(ImpossibleStep { step: index });
        };
        if resets_early(target.number, index + 1, path.len()) {
            return Err(ImpossibleStep { step: index });
        }
        state = target;
    }
    Ok(())
}
