// What is done with forms in slots: each operation is one equation on the list of forms.
ghost use Rattle.std.specs.Prelude.{◌≡◌, ◌+◌, ◌-◌, ◌*◌, ◌<◌, ◌≤◌, ◌⊎◌, [], Some, None, if◌then◌else◌, nat_lt, length, replicate, slice_index_or, slice_set};
ghost use Rattle.forms.specs.Rows.{part, Within};
ghost use Rattle.forms.specs.Forms as Forms;
ghost use Rattle.workspace.specs.Layout.{slot_count, scratch_at, terms_needed};
ghost use Rattle.workspace.specs.Slots.{told, give};
ghost use Rattle.workspace.specs.Views.{forms, named};
ghost use Rattle.workspace.specs.Evaluation.{group_form};

use crate::group::Group;
use crate::layout::SCRATCH;
use crate::lengths::Lengths;
use crate::limits::OverLimits;
use crate::slots::Slots;
use domain::Domain;
use forms::compare::{fixed, same_parts};
use forms::merge::merge;
use forms::monomial::CODES;
use forms::product::multiply;
use forms::rows::{copy, degree_of, negate};
use forms::{Monomial, Span, Term};

// The most terms of a form.
const LIMIT: usize = 16;

// The highest degree of a product.
const HIGHEST: u32 = CODES;

// How many symbols and how many inputs have codes, and the code before the first.
const SYMBOLS: u32 = 32;

const BEFORE_SYMBOLS: u32 = 1;

const INPUTS: u32 = 8;

const BEFORE_INPUTS: u32 = 33;

impl<'a, D> Slots<'a, D> {
    // The slots of a row, with no form in any.
    pub fn empty(row: &'a mut [Term<D>]) -> Slots<'a, D>
        requires { terms_needed ≤ length row.old }
        ensures { forms result ≡ replicate slot_count [] }
    {
        Slots {
            row,
            lens: Lengths::empty(),
        }
    }

    // The terms of a slot's form.
    fn terms(&self, k: usize) -> &[Term<D>]
        requires { k < slot_count }
        ensures { result.now ≡ slice_index_or (forms self.now) k [] }
    {
        let s = self.lens.span(k);
        let row: &[Term<D>] = self.row;
        &row[s.from..s.to]
    }
}

impl<D: Domain> Slots<'_, D> {
    // Slot k gets the terms of the part `s`, at most sixteen.
    fn place(&mut self, s: Span, k: usize)
        requires slot { k < slot_count }
        requires s { Within s (length self.old.row.now) }
        requires few { s.to - s.from ≤ 16 }
        requires apart { (16 * k ≤ s.from) ⊎ (s.to ≤ 16 * k) }
        ensures forms { forms self.new ≡ slice_set (forms self.old) k (part s self.old.row.now) }
    {
        copy(self.row, s, 16 * k);
        self.lens.of[k] = (s.to - s.from) as u8;
    }

    // Slot k gets the terms of the part `s` behind the slots, if they are at most sixteen.
    fn settle(&mut self, s: Span, k: usize) -> Result<(), OverLimits>
        requires slot { k < slot_count }
        requires s { Within s (length self.old.row.now) }
        requires behind { scratch_at ≤ s.from }
        ensures forms { told result (forms self.new) ≡ give k (Forms.limit (part s self.old.row.now)) (forms self.old) }
    {
        if s.to - s.from > LIMIT {
            return Err(OverLimits);
        }
        self.place(s, k);
        Ok(())
    }

    // Slot `to` gets the term, or no term where its coefficient is zero.
    fn single(&mut self, t: Term<D>, to: usize)
        requires slot { to < slot_count }
        ensures forms { forms self.new ≡ slice_set (forms self.old) to (Forms.unless_zero D.ops t []) }
    {
        if t.coefficient.same(D::zero()) {
            self.lens.of[to] = 0;
            return;
        }
        self.row[16 * to] = t;
        self.lens.of[to] = 1;
    }

    // Slot `to` gets the sum of the forms of two slots.
    // (Slots by number, one by one: each operation takes its own, and they are no group.)
    pub fn sum(&mut self, a: usize, b: usize, to: usize) -> Result<(), OverLimits>
        requires slots { (a < slot_count) × ((b < slot_count) × (to < slot_count)) }
        ensures forms { told result (forms self.new) ≡ give to (Forms.sum D.ops (slice_index_or (forms self.old) a []) (slice_index_or (forms self.old) b [])) (forms self.old) }
    {
        let (p, q) = (self.lens.span(a), self.lens.span(b));
        let s = merge(self.row, p, q, SCRATCH);
        self.settle(s, to)
    }

    // Slot `to` gets the difference of the forms of two slots.
    pub fn difference(&mut self, a: usize, b: usize, to: usize) -> Result<(), OverLimits>
        requires slots { (a < slot_count) × ((b < slot_count) × (to < slot_count)) }
        ensures forms { told result (forms self.new) ≡ give to (Forms.difference D.ops (slice_index_or (forms self.old) a []) (slice_index_or (forms self.old) b [])) (forms self.old) }
    {
        let (p, q) = (self.lens.span(a), self.lens.span(b));
        let n = negate(self.row, q, SCRATCH);
        let s = merge(self.row, p, n, n.to);
        self.settle(s, to)
    }

    // Slot `to` gets the product of the forms of two slots.
    pub fn product(&mut self, a: usize, b: usize, to: usize) -> Result<(), OverLimits>
        requires slots { (a < slot_count) × ((b < slot_count) × (to < slot_count)) }
        ensures forms { told result (forms self.new) ≡ give to (Forms.product D.ops (slice_index_or (forms self.old) a []) (slice_index_or (forms self.old) b [])) (forms self.old) }
    {
        if degree_of(self.terms(a)) + degree_of(self.terms(b)) > HIGHEST {
            return Err(OverLimits);
        }
        let (p, q) = (self.lens.span(a), self.lens.span(b));
        let s = multiply(self.row, p, q, SCRATCH);
        self.settle(s, to)
    }

    // Slot `to` gets the form of slot `from`.
    pub fn copy(&mut self, from: usize, to: usize)
        requires slots { (from < slot_count) × (to < slot_count) }
        ensures forms { forms self.new ≡ slice_set (forms self.old) to (slice_index_or (forms self.old) from []) }
    {
        let s = self.lens.span(from);
        self.place(s, to);
    }

    // Slot `to` gets the form of slot `a` negated.
    pub fn negation(&mut self, a: usize, to: usize)
        requires slots { (a < slot_count) × (to < slot_count) }
        ensures forms { forms self.new ≡ slice_set (forms self.old) to (Forms.negation D.ops (slice_index_or (forms self.old) a [])) }
    {
        let p = self.lens.span(a);
        let s = negate(self.row, p, SCRATCH);
        self.place(s, to);
    }

    // Slot `to` gets a constant.
    pub fn constant(&mut self, n: u32, to: usize)
        requires slots { to < slot_count }
        ensures forms { forms self.new ≡ slice_set (forms self.old) to (Forms.constant_form D.ops n) }
    {
        let (coefficient, monomial) = (D::constant(n), Monomial::none());
        self.single(
            Term {
                coefficient,
                monomial,
            },
            to,
        );
    }

    // Slot `to` gets the variable with this code.
    pub fn variable(&mut self, code: u8, to: usize)
        requires slots { to < slot_count }
        ensures forms { forms self.new ≡ slice_set (forms self.old) to (Forms.variable D.ops code) }
    {
        let (coefficient, monomial) = (D::one(), Monomial::from(code));
        self.single(
            Term {
                coefficient,
                monomial,
            },
            to,
        );
    }

    // Slot `to` gets variable n of those whose codes begin behind `before`, if there are so many.
    fn numbered(&mut self, n: u32, count: u32, before: u32, to: usize) -> Result<(), OverLimits>
        requires slots { to < slot_count }
        requires codes { before + count < 256 }
        ensures forms { told result (forms self.new) ≡ give to (if nat_lt n count then Some (Forms.variable D.ops (before + n)) else None) (forms self.old) }
    {
        if n >= count {
            return Err(OverLimits);
        }
        self.variable((before + n) as u8, to);
        Ok(())
    }

    // Slot `to` gets symbol n, if it has a code.
    pub fn symbol(&mut self, n: u32, to: usize) -> Result<(), OverLimits>
        requires slots { to < slot_count }
        ensures forms { told result (forms self.new) ≡ give to (Forms.symbol_form D.ops n) (forms self.old) }
    {
        self.numbered(n, SYMBOLS, BEFORE_SYMBOLS, to)
    }

    // Slot `to` gets input n, if it has a code.
    pub fn input(&mut self, n: u32, to: usize) -> Result<(), OverLimits>
        requires slots { to < slot_count }
        ensures forms { told result (forms self.new) ≡ give to (Forms.input_form D.ops n) (forms self.old) }
    {
        self.numbered(n, INPUTS, BEFORE_INPUTS, to)
    }

    // Slot `to` gets the form in place n of a group, if there are so many.
    pub fn read(&mut self, group: Group, n: u32, to: usize) -> Result<(), OverLimits>
        requires slots { to < slot_count }
        ensures forms { told result (forms self.new) ≡ give to (group_form (named (forms self.old)) group n) (forms self.old) }
    {
        if n >= group.count {
            return Err(OverLimits);
        }
        self.copy(group.first + n as usize, to);
        Ok(())
    }

    // Whether two slots have one form.
    // By the numbers of the slots: a form in a slot is no value that could be compared by itself.
    pub fn same(&self, a: usize, b: usize) -> bool
        requires slots { (a < slot_count) × (b < slot_count) }
        ensures { result ≡ Forms.same_form D.ops (slice_index_or (forms self.now) a []) (slice_index_or (forms self.now) b []) }
    {
        same_parts(self.row, self.lens.span(a), self.lens.span(b))
    }

    // The constant that the form of a slot is, if it is one.
    pub fn fixed(&self, a: usize) -> Option<D>
        requires slots { a < slot_count }
        ensures { result ≡ Forms.fixed D.ops (slice_index_or (forms self.now) a []) }
    {
        fixed(self.terms(a))
    }
}
