// Both paths of a claim, walked from its start pair.
ghost use Rattle.std.specs.Prelude.{◌≡◌, ◌≤◌, true, length};
ghost use Rattle.workspace.specs.Views.{forms};
ghost use Rattle.machine.specs.Tables.{table_machine};
ghost use Rattle.correspondence.specs.Judgement.{infeasible_rules};
ghost use Rattle.rules.specs.Kept.{is_kept, kept_pair};
ghost use Rattle.judgement.specs.Faults.{told_rule};
ghost use Rattle.judgement.specs.Walks.{side_of, walked, told_walked};

use crate::fault::RuleFault;
use crate::infeasible::check_infeasible;
use crate::outputs::compare_outputs;
use crate::states::states_of;
use crate::tables::Tables;
use domain::Domain;
use machine::accepted::State;
use machine::which::Which;
use rules::pairs::KeptPair;
use rules::starting::start;
use walk::known::KnownTests;
use walk::outputs::Outputs;
use walk::path::{follow, follow_settled};
use walk::side::Side;
use workspace::layout::{FIRST_OUTPUTS, FIRST_REGISTERS, SECOND_OUTPUTS, SECOND_REGISTERS};
use workspace::{Group, Slots};

// Where both paths end, and what is known then.
#[derive(Clone, Copy)]
pub struct Walked {
    pub first: u32,
    pub second: u32,
    pub known: KnownTests,
}

// Where the forms of a machine are kept.
fn side_of(tables: &Tables<'_>, which: Which) -> Side
    ensures { result ≡ side_of tables.now.counts tables.now.fit which }
{
    let counts = tables.counts;
    match which {
        Which::First => Side {
            registers: Group {
                first: FIRST_REGISTERS,
                count: counts.one.registers,
            },
            outputs: FIRST_OUTPUTS,
        },
        Which::Second => Side {
            registers: Group {
                first: SECOND_REGISTERS,
                count: counts.two.registers,
            },
            outputs: SECOND_OUTPUTS,
        },
    }
}

// Walks the first path and then the second, whose turns must be settled, and compares their outputs.
pub fn walk_both<D: Domain>(
    slots: &mut Slots<'_, D>,
    tables: Tables<'_>,
    pair: &[u32],
    first: &[bool],
    second: &[bool],
) -> Result<Walked, RuleFault>
    requires kept { is_kept tables.counts pair.now ≡ true }
    requires short { length first.now ≤ 16 }
    ensures { told_walked D.ops result (forms slots.new) tables.entry.counts ≡ walked D.ops (table_machine tables.entry.first.words.now) (table_machine tables.entry.second.words.now) (kept_pair tables.entry.counts pair.now) first.now second.now }
{
    let one = side_of(&tables, Which::First);
    let two = side_of(&tables, Which::Second);
    let from = states_of(tables.counts, pair);
    let pair = KeptPair {
        counts: tables.counts,
        words: pair,
    };
    let mut known = start(slots, &pair)?;
    let mut seen = Outputs::empty(0);
    let first = follow(
        slots,
        one,
        State {
            table: tables.first,
            number: from.first,
        },
        first,
        &mut known,
        &mut seen,
    )?;
    let mut other = Outputs::empty(0);
    let second = follow_settled(
        slots,
        two,
        State {
            table: tables.second,
            number: from.second,
        },
        second,
        &known,
        &mut other,
    )?;
    compare_outputs(slots, &seen, &other)?;
    Ok(Walked {
        first: first.number,
        second: second.number,
        known,
    })
}

// Checks that the first machine never takes a path from a pair.
pub fn infeasible_rules<D: Domain>(
    slots: &mut Slots<'_, D>,
    tables: Tables<'_>,
    pair: &[u32],
    path: &[bool],
) -> Result<(), RuleFault>
    requires kept { is_kept tables.counts pair.now ≡ true }
    requires short { length path.now ≤ 16 }
    ensures { told_rule result ≡ infeasible_rules D.ops (table_machine tables.entry.first.words.now) (kept_pair tables.entry.counts pair.now) path.now }
{
    let one = side_of(&tables, Which::First);
    let from = states_of(tables.counts, pair);
    let pair = KeptPair {
        counts: tables.counts,
        words: pair,
    };
    let mut known = start(slots, &pair)?;
    let mut outputs = Outputs::empty(0);
    check_infeasible(
        slots,
        one,
        State {
            table: tables.first,
            number: from.first,
        },
        path,
        &mut known,
        &mut outputs,
    )
}
