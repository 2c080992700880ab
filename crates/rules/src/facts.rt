// The facts of a pair, worked out one by one.
ghost use Rattle.std.specs.Prelude.{◌≡◌, ◌≤◌, IfOk};
ghost use Rattle.forms.specs.Forms.{symbol_form};
ghost use Rattle.workspace.specs.Slots.{told};
ghost use Rattle.workspace.specs.Views.{forms};
ghost use Rattle.walk.specs.Seen.{at_hand, KeptBeforeKnown};
ghost use Rattle.walk.specs.Taking.{KeptBelowTest};
ghost use Rattle.proposal.specs.Cursors.{fact_of};
ghost use Rattle.correspondence.specs.Judgement.{fact_form, fact_forms};
ghost use Rattle.rules.specs.Seen.{symbols_seen, noted_fact, told_known};
ghost use Rattle.rules.specs.Expressions.{fact_cut, facts_at, ReadableFact, ReadableFacts};

use crate::working::work_out;
use domain::Domain;
use expression::shape::Expression;
use proposal::cursor::{FactAt, fact_at};
use walk::known::{KnownTests, Noted, none_known};
use walk::learning::learn;
use workspace::layout::{LEFT, RIGHT};
use workspace::{OverLimits, Slots, Symbols};

// The sides of the fact at a place become those of the test at hand.
// (The words stay, and the place goes on from fact to fact.)
pub fn work_out_fact<D: Domain>(
    slots: &mut Slots<'_, D>,
    symbols: Symbols,
    words: &[u32],
    place: usize,
) -> Result<FactAt, OverLimits>
    requires readable { ReadableFact words.now place }
    ensures value { told result (at_hand (forms slots.new) (noted_fact (fact_cut words.now place))) ≡ fact_form D.ops (symbols_seen D.ops symbols (forms slots.old)) (fact_of words.now place (fact_cut words.now place)) }
    ensures kept { IfOk result (λ fact. (fact ≡ fact_cut words.now place) × KeptBelowTest (forms slots.old) (forms slots.new)) }
{
    let fact = fact_at(words, place);
    let left = Expression {
        words: &words[place..fact.cut],
    };
    let right = Expression {
        words: &words[fact.cut..fact.end],
    };
    work_out(slots, symbols, left, LEFT)?;
    work_out(slots, symbols, right, RIGHT)?;
    Ok(fact)
}

// The facts from a place on become known, symbols standing for themselves.
// Not one with `check_facts`: this learns each fact, that asks about it. By number: where a fact begins is told by the one before it.
pub fn learn_facts<D: Domain>(
    slots: &mut Slots<'_, D>,
    words: &[u32],
    facts: u32,
    place: usize,
) -> Result<KnownTests, OverLimits>
    requires readable { ReadableFacts words.now facts place }
    requires few { facts ≤ 8 }
    ensures known { told_known result (forms slots.new) ≡ fact_forms D.ops (symbol_form D.ops) (facts_at words.now facts place) }
    ensures kept { IfOk result (λ known. (known.count ≡ facts) × KeptBeforeKnown (forms slots.old) (forms slots.new)) }
{
    let mut known = none_known();
    let mut at = place;
    for i in 0..facts {
        let fact = work_out_fact(slots, Symbols::Own, words, at)?;
        let test = Noted {
            test: fact.test,
            says: fact.says,
        };
        learn(slots, &mut known, test);
        at = fact.end + 1;
    }
    Ok(known)
}
