// What the trials share: the loop counter's table, terms to lend, and the names of tests.
#![tactic(auto)]

ghost use Rattle.std.specs.Prelude.{◌≡◌, IfOk, replicate};
ghost use Rattle.samples.specs.Samples.{zero_term, test_bytes};

use domain::Domain;
use expression::test::Test;
use forms::{Monomial, Term};
use std::alloc::{AllocError, Global};

// The loop counter of docs/MACHINES.md.
pub const COUNTER: [u32; 33] = [
    0x00020301, 0x30000000, 0x10000000, 0x60000001, 0x10000009, 0x80000000, 0x90000000, 0x10000000,
    0x70000000, 0x10000000, 0x70000001, 0x10000000, 0x70000002, 0x90000001, 0x30000000, 0x20000002,
    0x60000001, 0x20000000, 0x20000001, 0x50000000, 0x80000000, 0x90000000, 0x20000000, 0x20000002,
    0x50000000, 0x70000000, 0x10000003, 0x70000001, 0x20000002, 0x10000001, 0x50000000, 0x70000002,
    0x90000001,
];

// So many terms that are zero, to be lent to a workspace.
pub fn zero_terms<D: Domain>(heap: Global, count: usize) -> Result<Vec<Term<D>>, AllocError>
    ensures { IfOk result (λ v. v.items ≡ replicate count (zero_term D.ops)) }
{
    let mut terms = Vec::new(heap);
    for _ in 0..count {
        terms.push(Term {
            coefficient: D::zero(),
            monomial: Monomial::none(),
        })?;
    }
    Ok(terms)
}

pub fn test_name(test: Test) -> &'static str
    ensures { result.now ≡ test_bytes test }
{
    match test {
        Test::Same => "same",
        Test::Below => "below",
    }
}
