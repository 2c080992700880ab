// The tests known so far.
ghost use Rattle.std.specs.Prelude.{◌≡◌};

use crate::bounded::Bounded;
use expression::test::Test;

// A test with its answer.
// (An answer is a bool: yes or no is the value itself.)
#[derive(Clone, Copy)]
pub struct Noted {
    pub test: Test,
    pub says: bool,
}

// Eight facts and sixteen tests of a path. The two sides of test j are the forms kept in slots KNOWN + 2 j and KNOWN + 2 j + 1.
pub type KnownTests = Bounded<Noted, 24>;

// No test is known.
pub fn none_known() -> KnownTests
    ensures { result.count ≡ 0 }
{
    let blank = Noted {
        test: Test::Same,
        says: false,
    };
    Bounded::empty(blank)
}
