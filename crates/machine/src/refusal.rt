// What is told of a refusal.
ghost use Rattle.std.specs.Prelude.{◌≡◌};
ghost use Rattle.machine.specs.Answer.{Figures};

// A refusal, told as its number and the place of the word that it names.
pub trait Refusal: Copy {
    // the figures that are told
    ghost figures: { Self → Figures };

    // A number and no enum: it is the printed figure of docs/REFUSALS.md.
    fn number(self) -> u32
        ensures { result ≡ (figures self).number };

    fn place(self) -> usize
        ensures { result ≡ (figures self).place };
}
