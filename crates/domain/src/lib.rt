// Domains of values: commutative rings with a value for each constant and two tests.
// Generic code knows a domain by its ghost operations and their laws alone.
#![tactic(auto)]

ghost use Rattle.std.specs.Prelude.{◌≡◌};
ghost use Rattle.domain.specs.Ring.{Ops, Laws};

pub mod byte;
pub mod bytes;
pub mod fips;
pub mod points;
pub mod word;
pub mod words;

pub trait Domain: Copy {
    // the operations on values
    ghost ops: { Ops Self };

    fn zero() -> Self
        ensures { result ≡ ops.zero };

    fn one() -> Self
        ensures { result ≡ ops.one };

    // The value of a constant number.
    fn constant(n: u32) -> Self
        ensures { result ≡ ops.constant n };

    fn add(self, other: Self) -> Self
        ensures { result ≡ ops.add self other };

    fn neg(self) -> Self
        ensures { result ≡ ops.neg self };

    fn mul(self, other: Self) -> Self
        ensures { result ≡ ops.mul self other };

    // Whether the two are one value.
    // No `PartialEq` or `Ord`: these are the domain's own tests, whose laws say what they decide.
    fn same(self, other: Self) -> bool
        ensures { result ≡ ops.same self other };

    fn below(self, other: Self) -> bool
        ensures { result ≡ ops.below self other };

    // what each `impl` must prove of them
    ghost ring: { Laws ops };
}
