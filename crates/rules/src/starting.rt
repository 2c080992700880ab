// The start pair of a claim: its registers get forms, and its facts become known.
ghost use Rattle.std.specs.Prelude.{◌≡◌, ◌≤◌, IfOk};
ghost use Rattle.workspace.specs.Views.{forms};
ghost use Rattle.correspondence.specs.Judgement.{started};
ghost use Rattle.rules.specs.Kept.{kept_pair};
ghost use Rattle.rules.specs.Told.{told_started};

use crate::facts::learn_facts;
use crate::pairs::{KeptPair, fact_count, first_registers, second_registers};
use crate::registers::work_out_registers;
use domain::Domain;
use walk::known::KnownTests;
use workspace::layout::{FIRST_REGISTERS, SECOND_REGISTERS};
use workspace::{Group, OverLimits, Slots};

// The registers of the start pair get forms, and its facts become known, symbols standing for themselves. Pair 0 has no words.
pub fn start<D: Domain>(
    slots: &mut Slots<'_, D>,
    pair: &KeptPair<'_>,
) -> Result<KnownTests, OverLimits>
    ensures starts { told_started D.ops result (forms slots.new) pair.now.counts ≡ started D.ops (kept_pair pair.now.counts pair.now.words.now) }
    ensures few { IfOk result (λ known. known.count ≤ 8) }
{
    let first = Group {
        first: FIRST_REGISTERS,
        count: pair.counts.one.registers,
    };
    let second = Group {
        first: SECOND_REGISTERS,
        count: pair.counts.two.registers,
    };
    let behind_first = work_out_registers(slots, pair.words, first_registers(pair.words), first)?;
    let from = second_registers(pair.counts, pair.words, behind_first);
    let behind_second = work_out_registers(slots, pair.words, from, second)?;
    learn_facts(slots, pair.words, fact_count(pair.words), behind_second)
}
