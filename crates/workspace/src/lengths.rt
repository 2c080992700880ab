ghost use Rattle.std.specs.Prelude.{◌≡◌, ℕ, ◌+◌, ◌*◌, ◌<◌, ◌≤◌, length, replicate};
ghost use Rattle.workspace.specs.Layout.{slot_count};
ghost use Rattle.workspace.specs.Slots.{place};

use forms::Span;

// How many terms the form in each slot has.
// No heap: an array of fixed length beside the row.
#[derive(Clone, Copy)]
pub struct Lengths {
    pub of: [u8; 162],
}

impl Lengths {
    // Where the form of a slot stands.
    pub fn span(&self, k: usize) -> Span
        requires { k < slot_count }
        ensures { result ≡ place self.now.of k }
    {
        let from = 16 * k;
        Span {
            from,
            to: from + self.of[k] as usize,
        }
    }

    // No form has terms.
    pub fn empty() -> Lengths
        ensures { result.of ≡ replicate slot_count 0 }
    {
        Lengths { of: [0; 162] }
    }
}
