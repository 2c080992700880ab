// The product of two forms that stand in a row.
ghost use Rattle.std.specs.Prelude.{◌≡◌, ◌+◌, ◌-◌, ◌≤◌, length};
ghost use Rattle.forms.specs.Rows.{part, Within, Put};
ghost use Rattle.forms.specs.Forms.{term_product, scaled, multiplied};

use crate::merge::merge;
use crate::rows::copy;
use crate::span::Span;
use crate::term::Term;
use domain::Domain;

impl<D: Domain> Term<D> {
    // The product of two terms.
    pub fn times(self, other: Term<D>) -> Term<D>
        ensures { result ≡ term_product D.ops self other }
    {
        Term {
            coefficient: self.coefficient.mul(other.coefficient),
            monomial: self.monomial.times(other.monomial),
        }
    }
}

// The part `b` times the term `x`, written from `at` on.
// `n` counts what is written, which can be less than what is read.
pub fn scale<D: Domain>(row: &mut [Term<D>], x: Term<D>, b: Span, at: usize) -> Span
    requires b { Within b at }
    requires room { at + (b.to - b.from) ≤ length row.old }
    ensures { Put at row.old (scaled D.ops x (part b row.old)) row.new result }
{
    let (below, target) = row.split_at_mut(at);
    let source = &*below;
    let mut n = 0;
    for y in &source[b.from..b.to] {
        let t = x.times(*y);
        if !t.coefficient.same(D::zero()) {
            target[n] = t;
            n += 1;
        }
    }
    Span {
        from: at,
        to: at + n,
    }
}

// The product of the parts `a` and `b`, from `at` on; what stands behind it is scratch.
pub fn multiply<D: Domain>(row: &mut [Term<D>], a: Span, b: Span, at: usize) -> Span
    requires a { Within a at }
    requires b { Within b at }
    requires few { (a.to - a.from ≤ 16) × (b.to - b.from ≤ 16) }
    requires room { at + 544 ≤ length row.old }
    ensures { Put at row.old (multiplied D.ops (part a row.old) (part b row.old)) row.new result }
{
    let mut acc = Span { from: at, to: at };
    // (By places: the row is written while its first part is read.)
    for i in (a.from..a.to).rev() {
        let x = row[i];
        let s = scale(row, x, b, acc.to);
        let m = merge(row, s, acc, s.to);
        acc = copy(row, m, at);
    }
    acc
}
