// The end pair of a claim: with the substitution, its registers are those reached, and its facts are settled.
// Slots, known tests and outputs are lent one by one: each has an owner of its own.
ghost use Rattle.std.specs.Prelude.{◌≡◌, OnOk};
ghost use Rattle.workspace.specs.Views.{forms};
ghost use Rattle.workspace.specs.Layout.{left_at};
ghost use Rattle.walk.specs.Walk.{nth};
ghost use Rattle.walk.specs.Seen.{kept_seen, known_seen, KeptBut};
ghost use Rattle.machine.specs.Which.{which_number};
ghost use Rattle.correspondence.specs.Judgement.{same_registers, facts_settled};
ghost use Rattle.rules.specs.Expressions.{registers_at, behind_registers, ReadableRegisters, facts_at, ReadableFacts};
ghost use Rattle.rules.specs.Kept.{kept_pair};
ghost use Rattle.rules.specs.Told.{told_end, found_by, Substituted, JudgesEnd};

use crate::facts::work_out_fact;
use crate::fault::EndFault;
use crate::pairs::{
    KeptPair, fact_count, first_registers, second_registers, substitution_registers, symbol_count,
};
use crate::registers::{Registers, work_out_register, work_out_registers};
use domain::Domain;
use machine::which::Which;
use walk::known::{KnownTests, Noted};
use walk::settling::is_settled;
use workspace::layout::{FIRST_REGISTERS, LEFT, SECOND_REGISTERS, SUBSTITUTION};
use workspace::{Group, Slots, Symbols};

// The registers of a machine, with these forms for symbols, have the forms reached. The place behind their expressions.
// By number: it is the register that a refusal names, and where its expression begins is told by the one before it.
fn check_registers<D: Domain>(
    slots: &mut Slots<'_, D>,
    symbols: Group,
    words: &[u32],
    from: Registers,
    reached: Group,
    machine: Which,
) -> Result<usize, EndFault>
    requires readable { ReadableRegisters words.now reached.count from }
    ensures same { told_end result ≡ found_by (same_registers D.ops (which_number machine) (nth (kept_seen (forms slots.old) symbols.first symbols.count)) 0 (registers_at words.now reached.count from) (kept_seen (forms slots.old) reached.first reached.count)) (behind_registers words.now reached.count from) }
    ensures kept { OnOk result (KeptBut left_at (forms slots.old) (forms slots.new)) }
{
    let mut registers = from;
    for register in 0..reached.count {
        registers = work_out_register(slots, Symbols::Kept(symbols), words, registers, LEFT)?;
        if !slots.same(LEFT, reached.first + register as usize) {
            return Err(EndFault::Register { machine, register });
        }
    }
    Ok(registers.place)
}

// The facts from a place on, with these forms for symbols, are settled by what is known.
// By number: where a fact begins is told by the one before it, and the number is the place of the refusal.
fn check_facts<D: Domain>(
    slots: &mut Slots<'_, D>,
    symbols: Group,
    words: &[u32],
    facts: u32,
    place: usize,
    known: &KnownTests,
) -> Result<(), EndFault>
    requires readable { ReadableFacts words.now facts place }
    ensures settles { told_end result ≡ facts_settled D.ops (known_seen known.now.items (forms slots.old) 0 known.now.count) (nth (kept_seen (forms slots.old) symbols.first symbols.count)) 0 (facts_at words.now facts place) }
{
    let mut at = place;
    for i in 0..facts as usize {
        let fact = work_out_fact(slots, Symbols::Kept(symbols), words, at)?;
        let asked = Noted {
            test: fact.test,
            says: fact.says,
        };
        if !is_settled(slots, known, asked) {
            return Err(EndFault::Fact(i));
        }
        at = fact.end + 1;
    }
    Ok(())
}

// With the substitution of a claim, the end pair has the registers reached, and its facts are settled by what is known. Pair 0 has no words.
pub fn check_end<D: Domain>(
    slots: &mut Slots<'_, D>,
    pair: &KeptPair<'_>,
    claim: &[u32],
    known: &KnownTests,
) -> Result<(), EndFault>
    requires substituted { Substituted (kept_pair pair.now.counts pair.now.words.now).symbols claim.now }
    ensures { JudgesEnd D.ops pair.now.counts pair.now.words.now claim.now known.now (forms slots.old) result }
{
    let symbols = Group {
        first: SUBSTITUTION,
        count: symbol_count(pair.counts, pair.words),
    };
    let first = Group {
        first: FIRST_REGISTERS,
        count: pair.counts.one.registers,
    };
    let second = Group {
        first: SECOND_REGISTERS,
        count: pair.counts.two.registers,
    };
    work_out_registers(slots, claim, substitution_registers(), symbols)?;
    let words = pair.words;
    let from = first_registers(pair.words);
    let behind_first = check_registers(slots, symbols, words, from, first, Which::First)?;
    let from = second_registers(pair.counts, pair.words, behind_first);
    let behind_second = check_registers(slots, symbols, words, from, second, Which::Second)?;
    check_facts(
        slots,
        symbols,
        words,
        fact_count(pair.words),
        behind_second,
        known,
    )
}
