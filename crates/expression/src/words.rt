// Words of 32 bits: the top four are the kind, the rest the number.
ghost use Rattle.std.specs.Prelude.{◌≡◌};
ghost use Rattle.expression.specs.Kinds.{kind_number};
ghost use Rattle.expression.specs.Words.{number, item, item_of, takes, test_of, WordsReadBack};

use crate::item::Item;
use crate::kind::{Kind, NUMBERS};
use crate::test::Test;

// The number in a word, below its kind.
pub fn number_of(word: u32) -> u32
    ensures { result ≡ number word }
{
    word % NUMBERS
}

impl From<u32> for Item {
    ghost from_gives = { λ w i. i ≡ item_of w };

    // What a word of an expression stands for.
    #[tactic(auto, unfolding(crate::specs::Words::item_of))]
    fn from(word: u32) -> Item {
        Item::at(Kind::from(word), number_of(word))
    }
}

impl Item {
    // What a word of this kind and number stands for.
    // Operations by number: it is the format's own (docs/TABLE-FORMAT.md).
    fn at(kind: Kind, n: u32) -> Item
        ensures { result ≡ item (kind_number kind) n }
    {
        match kind {
            Kind::Constant => Item::Constant(n),
            Kind::Register => Item::Register(n),
            Kind::Input => Item::Input(n),
            Kind::Symbol => Item::Symbol(n),
            _ => match n {
                0 => Item::Sum,
                1 => Item::Difference,
                2 => Item::Product,
                _ => Item::Negation,
            },
        }
    }

    // How many values it takes off the stack; it leaves one.
    pub fn taken(self) -> usize
        ensures { result ≡ takes self }
    {
        match self {
            Item::Sum | Item::Difference | Item::Product => 2,
            Item::Negation => 1,
            Item::Constant(_) | Item::Register(_) | Item::Input(_) | Item::Symbol(_) => 0,
        }
    }
}

impl From<u32> for Test {
    ghost from_gives = { λ n t. t ≡ test_of n };

    // The test with this number: bit 0 tells which.
    fn from(n: u32) -> Test {
        if n % 2 == 0 { Test::Same } else { Test::Below }
    }
}

// An item and its word determine each other.
pub fn words_read_back()
    ensures { WordsReadBack }
{}
