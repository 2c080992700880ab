// Why the words of a pair or a claim are refused.
ghost use Rattle.std.specs.Prelude.{◌≡◌};
ghost use Rattle.proposal.specs.Places.{pair_fault, claim_fault, pair_figures, claim_figures};

use machine::refusal::Refusal;
use machine::words::WordFault;

// A malformed pair, with the place of the word, or a state that is reset or missing.
// Its number is the printed figure. Two types and not one: each reader names only the faults that it has, and no pair can be refused as a claim.
#[derive(Clone, Copy)]
pub enum PairFault {
    Malformed(usize),
    BadState,
}

// A malformed claim, with the place of the word, or a pair that is not filed.
#[derive(Clone, Copy)]
pub enum ClaimFault {
    Malformed(usize),
    NotFiled,
}

impl From<WordFault> for PairFault {
    ghost from_gives = { λ f g. g ≡ pair_fault f };

    fn from(f: WordFault) -> PairFault {
        match f {
            WordFault::Forbidden(place) | WordFault::EndsEarly(place) => {
                PairFault::Malformed(place)
            }
        }
    }
}

impl From<WordFault> for ClaimFault {
    ghost from_gives = { λ f g. g ≡ claim_fault f };

    fn from(f: WordFault) -> ClaimFault {
        match f {
            WordFault::Forbidden(place) | WordFault::EndsEarly(place) => {
                ClaimFault::Malformed(place)
            }
        }
    }
}

impl Refusal for PairFault {
    ghost figures = { pair_figures };

    fn number(self) -> u32 {
        match self {
            PairFault::Malformed(_) => 6,
            PairFault::BadState => 8,
        }
    }

    fn place(self) -> usize {
        match self {
            PairFault::Malformed(place) => place,
            PairFault::BadState => 0,
        }
    }
}

impl Refusal for ClaimFault {
    ghost figures = { claim_figures };

    fn number(self) -> u32 {
        match self {
            ClaimFault::Malformed(_) => 7,
            ClaimFault::NotFiled => 9,
        }
    }

    fn place(self) -> usize {
        match self {
            ClaimFault::Malformed(place) => place,
            ClaimFault::NotFiled => 0,
        }
    }
}
