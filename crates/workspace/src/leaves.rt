// What the leaves of an expression stand for.
ghost use Rattle.std.specs.Prelude.{◌≡◌};
ghost use Rattle.workspace.specs.Comparison.{own_leaves};
ghost use Rattle.workspace.specs.Evaluation.{no_group};

use crate::group::Group;

// What symbols stand for: themselves, or the forms kept in slots.
// No `Option`: symbols that stand for themselves are no absence.
#[derive(Clone, Copy)]
pub enum Symbols {
    Own,
    Kept(Group),
}

// Registers stand for the forms kept in slots; inputs stand for themselves.
#[derive(Clone, Copy)]
pub struct Leaves {
    pub registers: Group,
    pub symbols: Symbols,
}

impl Group {
    // No slots.
    pub fn none() -> Group
        ensures { result ≡ no_group }
    {
        Group { first: 0, count: 0 }
    }
}

impl Leaves {
    // No registers, and symbols that stand for themselves.
    pub fn own() -> Leaves
        ensures { result ≡ own_leaves }
    {
        Leaves {
            registers: Group::none(),
            symbols: Symbols::Own,
        }
    }
}
