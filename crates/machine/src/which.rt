// Which of the two machines of a comparison.
ghost use Rattle.std.specs.Prelude.{◌≡◌};
ghost use Rattle.machine.specs.Which.{which_number};

#[derive(Clone, Copy, PartialEq, Eq)]
pub enum Which {
    First = 1,
    Second = 2,
}

impl Which {
    // Its number, as it is told; everywhere else it is a `Which`.
    pub fn number(self) -> u32
        ensures { result ≡ which_number self }
    {
        self as u32
    }
}
