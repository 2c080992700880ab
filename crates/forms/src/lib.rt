// Normal forms of polynomials: monomials, terms, and forms as parts of a row of terms.
#![tactic(auto)]

pub mod compare;
pub mod merge;
pub mod monomial;
pub mod points;
pub mod product;
pub mod rows;
pub mod span;
pub mod term;
pub mod theorems;

pub use monomial::Monomial;
pub use span::Span;
pub use term::Term;
