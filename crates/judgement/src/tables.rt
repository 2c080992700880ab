// The two tables of a comparison.
ghost use Rattle.std.specs.Prelude.{◌≡◌};
ghost use Rattle.rules.specs.Kept.{Fit};

use machine::accepted::Table;
use rules::counts::Counts;

// Both tables, accepted, and their counts.
#[derive(Clone, Copy)]
pub struct Tables<'a> {
    pub first: Table<'a>,
    pub second: Table<'a>,
    pub counts: Counts,
    ghost first_is: { first.head ≡ counts.one },
    ghost second_is: { second.head ≡ counts.two },
    ghost fit: { Fit counts },
}
