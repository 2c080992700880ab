// What holds of monomials and normal forms, for every domain.
ghost use Rattle.std.specs.Prelude.{ℕ};
ghost use Rattle.forms.specs.Theorems.{MonomialFacts, CodeFacts, Lawful, OneForm, Value};

use domain::Domain;

// Monomials packed into words of any number of codes: they can be read back, keep their order, and multiply as code lists do.
pub fn monomial_facts()
    ensures words { (k : ℕ) → MonomialFacts k }
    ensures codes { CodeFacts }
{}

// The operations within the limits give normal forms with the right value.
pub fn lawful<D: Domain>()
    ensures { Lawful D.ops }
{}

// Two expressions within the limits have one normal form exactly when they are the same polynomial.
pub fn one_form<D: Domain>()
    ensures { OneForm D.ops }
{}

// The value of the form of an expression is the value of the expression.
pub fn value_kept<D: Domain>()
    ensures { Value D.ops }
{}
