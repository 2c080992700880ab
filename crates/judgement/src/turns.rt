// The turns of a path, one by one.
ghost use Rattle.std.specs.Prelude.{◌≡◌, ◌≤◌, take};
ghost use Rattle.proposal.specs.Claims.{turns_of};

use proposal::claim::Path;

// Writes the turns of a path into the first places; `true` is yes.
// By number: `iter_mut().take(..)` was tried, and its proof did not close.
pub fn spell_turns(path: Path, turns: &mut [bool; 16])
    requires { path.length ≤ 16 }
    ensures { take path.length turns.new ≡ turns_of path }
{
    let mut left = path.turns;
    for i in 0..path.length {
        turns[i as usize] = left % 2 != 1;
        left /= 2;
    }
}
