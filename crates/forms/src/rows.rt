// Forms that are copied and negated within a row, and their degree.
ghost use Rattle.std.specs.Prelude.{◌≡◌, ◌+◌, ◌-◌, ◌≤◌, ◌⊎◌, length};
ghost use Rattle.forms.specs.Monomials.{K};
ghost use Rattle.forms.specs.Rows.{part, Within, Written, Put};
ghost use Rattle.forms.specs.Forms.{negation, top};

use crate::span::Span;
use crate::term::Term;
use domain::Domain;

// The part `s`, copied to stand from `at` on, where it does not overlap itself upwards.
pub fn copy<D: Copy>(row: &mut [Term<D>], s: Span, at: usize) -> Span
    requires s { Within s (length row.old) }
    requires room { at + (s.to - s.from) ≤ length row.old }
    requires apart { (at ≤ s.from) ⊎ (s.to ≤ at) }
    ensures put { Put at row.old (part s row.old) row.new result }
    ensures written { Written at row.old (part s row.old) row.new }
{
    row.copy_within(s.from..s.to, at);
    Span {
        from: at,
        to: at + (s.to - s.from),
    }
}

// The part `b` negated, written from `at` on.
pub fn negate<D: Domain>(row: &mut [Term<D>], b: Span, at: usize) -> Span
    requires b { Within b at }
    requires room { at + (b.to - b.from) ≤ length row.old }
    ensures { Put at row.old (negation D.ops (part b row.old)) row.new result }
{
    let s = copy(row, b, at);
    for t in &mut row[s.from..s.to] {
        t.coefficient = t.coefficient.neg();
    }
    s
}

// The largest degree of a form's terms.
pub fn degree_of<D: Copy>(terms: &[Term<D>]) -> u32
    ensures top { result ≡ top terms.now }
    ensures few { result ≤ K }
{
    terms.iter().map(|t| t.monomial.degree()).max().unwrap_or(0)
}
