// Integers modulo 2^32 as a domain.
ghost use Rattle.std.specs.Prelude.{◌≡◌, ℕ, ◌%◌, ◌^◌};
ghost use Rattle.domain.specs.Words.{word_ops, word_of};
ghost use Rattle.domain.specs.WordLaws.{word_laws};

use crate::Domain;
use crate::word::Word;

// The word with these bits, which is that of each number that leaves them modulo 2^32.
impl From<u32> for Word {
    ghost from_gives = { λ bits w. (n : ℕ) → n % 2 ^ 32 ≡ bits → w ≡ word_of n };

    fn from(bits: u32) -> Word {
        Word { bits }
    }
}

impl Domain for Word {
    ghost ops = { word_ops };

    ghost ring = { word_laws };

    fn zero() -> Word {
        Word::from(0)
    }

    fn one() -> Word {
        Word::from(1)
    }

    fn constant(n: u32) -> Word {
        Word::from(n)
    }

    fn add(self, other: Word) -> Word {
        Word::from(self.bits.wrapping_add(other.bits))
    }

    fn neg(self) -> Word {
        Word::from(0u32.wrapping_sub(self.bits))
    }

    fn mul(self, other: Word) -> Word {
        Word::from(self.bits.wrapping_mul(other.bits))
    }

    fn same(self, other: Word) -> bool {
        self == other
    }

    // in two's complement
    fn below(self, other: Word) -> bool {
        self.bits.cast_signed() < other.bits.cast_signed()
    }
}
