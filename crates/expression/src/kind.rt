// The kinds of words.
ghost use Rattle.std.specs.Prelude.{◌≡◌, ◌+◌, ◌*◌, ◌<◌, ◌==◌};
ghost use Rattle.expression.specs.Words.{kind};
ghost use Rattle.expression.specs.Kinds.{kind_number};

// How many words there are of each kind.
pub const NUMBERS: u32 = 1 << 28;

// What a word is for: the head of a table, part of an expression, an end, a word of a proposal, or the head of a record of a file.
#[derive(Clone, Copy, PartialEq, Eq, PartialOrd, Ord)]
pub enum Kind {
    Head,
    Constant,
    Register,
    Input,
    Symbol,
    Operation,
    Test,
    Store,
    Emit,
    Goto,
    Pair,
    Claim,
    FirstPath,
    SecondPath,
    Mask,
    Record,
}

impl From<u32> for Kind {
    ghost from_gives = { λ w k. kind_number k ≡ kind w };

    // The kind in the top four bits of a word.
    fn from(word: u32) -> Kind {
        match word / NUMBERS {
            0 => Kind::Head,
            1 => Kind::Constant,
            2 => Kind::Register,
            3 => Kind::Input,
            4 => Kind::Symbol,
            5 => Kind::Operation,
            6 => Kind::Test,
            7 => Kind::Store,
            8 => Kind::Emit,
            9 => Kind::Goto,
            10 => Kind::Pair,
            11 => Kind::Claim,
            12 => Kind::FirstPath,
            13 => Kind::SecondPath,
            14 => Kind::Mask,
            _ => Kind::Record,
        }
    }
}

impl Kind {
    // The word of this kind with a number.
    pub fn word(self, number: u32) -> u32
        requires { number < 0x10000000 }
        ensures { result ≡ kind_number self * 0x10000000 + number }
    {
        self as u32 * NUMBERS + number
    }

    // Whether a word is of this kind.
    pub fn is_of(self, word: u32) -> bool
        ensures { result ≡ (kind word == kind_number self) }
    {
        Kind::from(word) == self
    }
}
