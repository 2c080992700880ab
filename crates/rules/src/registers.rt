// The registers of a pair, worked out one by one.
ghost use Rattle.std.specs.Prelude.{◌≡◌, ◌+◌, ◌<◌, [], ◌∷◌, IfOk, OnOk, slice_index_or};
ghost use Rattle.expression.specs.declared.item.Item.TheVariants.{Symbol};
ghost use Rattle.forms.specs.Forms.{symbol_form};
ghost use Rattle.workspace.specs.Layout.{stack_at};
ghost use Rattle.workspace.specs.Slots.{told};
ghost use Rattle.workspace.specs.Views.{forms};
ghost use Rattle.walk.specs.Seen.{kept_seen, KeptBut};
ghost use Rattle.correspondence.specs.Judgement.{form_in_proposal, formed};
ghost use Rattle.rules.specs.Seen.{symbols_seen, KeptButGroup};
ghost use Rattle.rules.specs.Expressions.{end_at, expression_at, ReadableAt, own_symbol, register_at, next_register, registers_at, behind_registers, ReadableRegister, ReadableRegisters};

use crate::working::work_out;
use domain::Domain;
use expression::kind::Kind;
use expression::shape::Expression;
use proposal::cursor::expression_end;
use workspace::{Group, OverLimits, Slots, Symbols};

// Where a pair's registers stand, from one on: each with a one in `mask`, the lowest first, has an expression in words from `place` on.
// Another is a symbol: that of its number if it is shared, else that of its number plus `offset`.
#[derive(Clone, Copy)]
pub struct Registers {
    pub register: u32,
    pub mask: u32,
    pub place: usize,
    pub shared: u32,
    pub offset: u32,
}

impl Registers {
    // The symbol that the register at hand is if it has no expression.
    fn own_symbol(self) -> u32
        requires { self.register + self.offset < 0x10000000 }
        ensures value { result ≡ own_symbol self }
        ensures small { result < 0x10000000 }
    {
        if self.register < self.shared {
            self.register
        } else {
            self.register + self.offset
        }
    }
}

// Slot `to` gets the form of a symbol.
fn work_out_symbol<D: Domain>(
    slots: &mut Slots<'_, D>,
    symbols: Symbols,
    symbol: u32,
    to: usize,
) -> Result<(), OverLimits>
    requires small { symbol < 0x10000000 }
    requires slot { to < stack_at }
    ensures value { told result (slice_index_or (forms slots.new) to []) ≡ form_in_proposal D.ops (symbols_seen D.ops symbols (forms slots.old)) (Symbol symbol ∷ []) }
    ensures kept { OnOk result (KeptBut to (forms slots.old) (forms slots.new)) }
{
    let word = [Kind::Symbol.word(symbol)];
    work_out(slots, symbols, Expression { words: &word }, to)
}

// Slot `to` gets the form of the expression at a place. The place behind the word that ends it.
fn work_out_at<D: Domain>(
    slots: &mut Slots<'_, D>,
    symbols: Symbols,
    words: &[u32],
    place: usize,
    to: usize,
) -> Result<usize, OverLimits>
    requires readable { ReadableAt words.now place }
    requires slot { to < stack_at }
    ensures value { told result (slice_index_or (forms slots.new) to []) ≡ form_in_proposal D.ops (symbols_seen D.ops symbols (forms slots.old)) (expression_at words.now place) }
    ensures kept { IfOk result (λ behind. (behind ≡ end_at words.now place + 1) × KeptBut to (forms slots.old) (forms slots.new)) }
{
    let end = expression_end(words, place);
    let expression = Expression {
        words: &words[place..end],
    };
    work_out(slots, symbols, expression, to)?;
    Ok(end + 1)
}

// Slot `to` gets the form of the register at hand; the other slots below the stack are kept. The registers behind it.
pub fn work_out_register<D: Domain>(
    slots: &mut Slots<'_, D>,
    symbols: Symbols,
    words: &[u32],
    registers: Registers,
    to: usize,
) -> Result<Registers, OverLimits>
    requires readable { ReadableRegister words.now registers }
    requires slot { to < stack_at }
    ensures value { told result (slice_index_or (forms slots.new) to []) ≡ form_in_proposal D.ops (symbols_seen D.ops symbols (forms slots.old)) (register_at words.now registers) }
    ensures kept { IfOk result (λ next. (next ≡ next_register words.now registers) × KeptBut to (forms slots.old) (forms slots.new)) }
{
    let in_words = registers.mask % 2 == 1;
    let place = if in_words {
        work_out_at(slots, symbols, words, registers.place, to)?
    } else {
        work_out_symbol(slots, symbols, registers.own_symbol(), to)?;
        registers.place
    };
    Ok(Registers {
        register: registers.register + 1,
        mask: registers.mask / 2,
        place,
        ..registers
    })
}

// A group of slots gets the forms of as many registers, symbols standing for themselves; the other slots below the stack are kept.
// The place behind their expressions.
// By number: where an expression begins is told by the one before it.
pub fn work_out_registers<D: Domain>(
    slots: &mut Slots<'_, D>,
    words: &[u32],
    from: Registers,
    group: Group,
) -> Result<usize, OverLimits>
    requires readable { ReadableRegisters words.now group.count from }
    ensures values { told result (kept_seen (forms slots.new) group.first group.count) ≡ formed D.ops (symbol_form D.ops) (registers_at words.now group.count from) }
    ensures kept { IfOk result (λ behind. (behind ≡ behind_registers words.now group.count from) × KeptButGroup group (forms slots.old) (forms slots.new)) }
{
    let mut registers = from;
    for i in 0..group.count {
        registers = work_out_register(
            slots,
            Symbols::Own,
            words,
            registers,
            group.first + i as usize,
        )?;
    }
    Ok(registers.place)
}
