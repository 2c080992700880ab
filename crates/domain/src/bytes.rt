// The field of FIPS 197 as a domain: sum is exclusive or, product is taken modulo hex 11b.
ghost use Rattle.std.specs.Prelude.{◌≡◌, ℕ, ◌%◌};
ghost use Rattle.domain.specs.Bytes.{byte_ops, byte_of};
ghost use Rattle.domain.specs.ByteLaws.{byte_laws};

use crate::byte::Byte;
use crate::{Domain, fips};

// The byte with this value, which is that of each number that leaves it modulo 256.
impl From<u8> for Byte {
    ghost from_gives = { λ value b. (n : ℕ) → n % 256 ≡ value → b ≡ byte_of n };

    fn from(value: u8) -> Byte {
        Byte { value }
    }
}

impl Domain for Byte {
    ghost ops = { byte_ops };

    ghost ring = { byte_laws };

    fn zero() -> Byte {
        Byte::from(0)
    }

    fn one() -> Byte {
        Byte::from(1)
    }

    fn constant(n: u32) -> Byte {
        Byte::from((n % 256) as u8)
    }

    fn add(self, other: Byte) -> Byte {
        Byte::from(self.value ^ other.value)
    }

    fn neg(self) -> Byte {
        self
    }

    fn mul(self, other: Byte) -> Byte {
        Byte::from(fips::product(self.value, other.value))
    }

    fn same(self, other: Byte) -> bool {
        self == other
    }

    fn below(self, other: Byte) -> bool {
        self.value < other.value
    }
}
