// The test of a row, put to the forms of the registers.
ghost use Rattle.std.specs.Prelude.{◌≡◌, if◌then◌else◌, OnOk};
ghost use Rattle.machine.specs.Machine.{chosen};
ghost use Rattle.machine.specs.Reading.{transition_of, behind, row_of};
ghost use Rattle.machine.specs.Views.{ahead};
ghost use Rattle.workspace.specs.Views.{forms};
ghost use Rattle.walk.specs.Walk.{tested};
ghost use Rattle.walk.specs.Seen.{kept_seen};
ghost use Rattle.walk.specs.Taking.{ReadableRow, put_told, KeptBelowTest};

use crate::working::work_out;
use domain::Domain;
use expression::shape::Expression;
use expression::test::Test;
use machine::row::Row;
use machine::view::Part;
use workspace::layout::{LEFT, RIGHT};
use workspace::{Group, OverLimits, Slots};

// Behind a test: goes to the transition that a turn selects.
// (A turn is a bool: yes or no is the value itself.)
pub fn choose(row: &mut Row<'_>, turn: bool)
    ensures { transition_of (ahead row.new) ≡ (if turn then transition_of (ahead row.old) else transition_of (behind (ahead row.old))) }
{
    if !turn {
        row.skip_transition();
    }
}

// Puts the test of a row, if it has one: its two sides are worked out. The row goes on to the transition that a turn selects.
pub fn put_test<D: Domain>(
    slots: &mut Slots<'_, D>,
    row: &mut Row<'_>,
    registers: Group,
    turn: bool,
) -> Result<Option<Test>, OverLimits>
    requires readable { ReadableRow (row_of (ahead row.old)) }
    ensures tests { put_told result turn (forms slots.new) ≡ tested D.ops (row_of (ahead row.old)) turn (kept_seen (forms slots.old) registers.first registers.count) }
    ensures goes { OnOk result (transition_of (ahead row.new) ≡ chosen (row_of (ahead row.old)) turn) }
    ensures kept { OnOk result (KeptBelowTest (forms slots.old) (forms slots.new)) }
{
    let mut behind = *row;
    let Some(Part::Test { test, left, right }) = behind.next_part() else {
        return Ok(None);
    };
    work_out(slots, registers, Expression { words: left }, LEFT)?;
    work_out(slots, registers, Expression { words: right }, RIGHT)?;
    choose(&mut behind, turn);
    *row = behind;
    Ok(Some(test))
}
