// Equality of forms.
ghost use Rattle.std.specs.Prelude.{◌≡◌, length, Decides};
ghost use Rattle.forms.specs.Rows.{part, Within};
ghost use Rattle.forms.specs.Forms.{same_form, same_term, fixed};

use crate::monomial::Monomial;
use crate::span::Span;
use crate::term::Term;
use domain::Domain;

impl<D: Domain> Term<D> {
    // No derived equality: coefficients are compared by the domain's own test.
    pub fn same(self, other: Term<D>) -> bool
        ensures is { result ≡ same_term D.ops self other }
        ensures decides { Decides result (self ≡ other) }
    {
        self.monomial == other.monomial && self.coefficient.same(other.coefficient)
    }
}

// Whether two forms are one.
pub fn same<D: Domain>(p: &[Term<D>], q: &[Term<D>]) -> bool
    ensures is { result ≡ same_form D.ops p.now q.now }
    ensures decides { Decides result (p.now ≡ q.now) }
{
    p.len() == q.len() && p.iter().zip(q).all(|(s, t)| s.same(*t))
}

// Whether two parts of a row are one form.
pub fn same_parts<D: Domain>(row: &[Term<D>], s: Span, t: Span) -> bool
    requires s { Within s (length row.now) }
    requires t { Within t (length row.now) }
    ensures { result ≡ same_form D.ops (part s row.now) (part t row.now) }
{
    same(&row[s.from..s.to], &row[t.from..t.to])
}

// The constant that a form is, if it is one.
pub fn fixed<D: Domain>(p: &[Term<D>]) -> Option<D>
    ensures { result ≡ fixed D.ops p.now }
{
    match p {
        [] => Some(D::zero()),
        [t] if t.monomial == Monomial::none() => Some(t.coefficient),
        _ => None,
    }
}
