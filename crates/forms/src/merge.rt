// The sum of two forms that stand in a row, written behind them.
ghost use Rattle.std.specs.Prelude.{◌≡◌, ◌+◌, ◌-◌, ◌<◌, ◌≤◌, [], ◌++◌, length, take};
ghost use Rattle.std.specs.Option.{option_to_list};
ghost use Rattle.forms.specs.Rows.{part, Within, Put};
ghost use Rattle.forms.specs.Forms.{added, unless_zero, term};

use crate::span::Span;
use crate::term::Term;
use domain::Domain;

// The sum of two terms of one monomial, if it is not zero.
fn total<D: Domain>(s: Term<D>, t: Term<D>) -> Option<Term<D>>
    ensures { option_to_list result ≡ unless_zero D.ops (term (D.ops.add s.coefficient t.coefficient) s.monomial) [] }
{
    let coefficient = s.coefficient.add(t.coefficient);
    if coefficient.same(D::zero()) {
        return None;
    }
    Some(Term {
        coefficient,
        monomial: s.monomial,
    })
}

// The first term of the sum, and what is left of the two forms; no term where two coefficients add up to zero.
fn next<'a, D: Domain>(
    p: &'a [Term<D>],
    q: &'a [Term<D>],
) -> (Option<Term<D>>, &'a [Term<D>], &'a [Term<D>])
    ensures sum { added D.ops p.now q.now ≡ option_to_list result.0 ++ added D.ops result.1.now result.2.now }
    ensures room { length (option_to_list result.0) + (length result.1.now + length result.2.now) ≤ length p.now + length q.now }
    ensures less { 0 < length p.now + length q.now → length result.1.now + length result.2.now < length p.now + length q.now }
{
    match (p, q) {
        ([s, ps @ ..], [t, ..]) if s.monomial > t.monomial => (Some(*s), ps, q),
        ([s, ..], [t, qs @ ..]) if s.monomial < t.monomial => (Some(*t), p, qs),
        ([s, ps @ ..], [t, qs @ ..]) => (total(*s, *t), ps, qs),
        ([s, ps @ ..], []) => (Some(*s), ps, q),
        ([], [t, qs @ ..]) => (Some(*t), p, qs),
        ([], []) => (None, p, q),
    }
}

// Terms written into a row from a place on. The place behind them.
fn put<D: Copy>(row: &mut [Term<D>], at: usize, terms: &[Term<D>]) -> usize
    requires { at + length terms.now ≤ length row.old }
    ensures put { take result row.new ≡ take at row.old ++ terms.now }
    ensures behind { result ≡ at + length terms.now }
    ensures long { length row.new ≡ length row.old }
{
    let mut n = at;
    for t in terms {
        row[n] = *t;
        n += 1;
    }
    n
}

// The sum of the parts `a` and `b`, written from `at` on.
// Once one of them is used up, what is left of the other is the rest of the sum.
// No iterator: two slices shrink at different rates, and `n` counts what is written, which can be less than what is read.
pub fn merge<D: Domain>(row: &mut [Term<D>], a: Span, b: Span, at: usize) -> Span
    requires a { Within a at }
    requires b { Within b at }
    requires room { at + ((a.to - a.from) + (b.to - b.from)) ≤ length row.old }
    ensures { Put at row.old (added D.ops (part a row.old) (part b row.old)) row.new result }
{
    let (below, target) = row.split_at_mut(at);
    let source = &*below;
    let mut p = &source[a.from..a.to];
    let mut q = &source[b.from..b.to];
    let mut n = 0;
    while !p.is_empty() && !q.is_empty() {
        let (t, ps, qs) = next(p, q);
        p = ps;
        q = qs;
        if let Some(t) = t {
            target[n] = t;
            n += 1;
        }
    }
    let n = put(target, n, p);
    let n = put(target, n, q);
    Span {
        from: at,
        to: at + n,
    }
}
