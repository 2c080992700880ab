// The tree of turns from a pair: the first path that no claim matches.
ghost use Rattle.std.specs.Prelude.{◌≡◌, ◌+◌, ◌<◌, ◌≤◌, [], ◌∷◌, ◌++◌, IfSome};
ghost use Rattle.proposal.specs.Claims.{turns_of};
ghost use Rattle.coverage.specs.Trees.{Tidy, Finds, Lacks};

use crate::matching::{Along, any_match};
use machine::accepted::State;
use proposal::claim::{Claim, Path};
use walk::order::step_target;

// The longest path, and one.
const DEPTH: u32 = 17;

// A path with one turn more.
// (A turn is a bool: yes or no is the value itself.)
fn extended(path: Path, turn: bool) -> Path
    requires tidy { Tidy path }
    requires short { path.length < 17 }
    ensures turns { turns_of result ≡ turns_of path ++ (turn ∷ []) }
    ensures tidy { Tidy result }
    ensures length { result.length ≡ path.length + 1 }
{
    let no = if turn { 0 } else { 1 << path.length };
    Path {
        length: path.length + 1,
        turns: path.turns + no,
    }
}

// Where paths are looked for: the claims of a comparison, and a pair.
#[derive(Clone, Copy)]
struct Tree<'a> {
    claims: &'a [Claim],
    pair: u32,
}

impl Tree<'_> {
    // From a path on, which leads to a state, the first that is unmatched: beginnings before continuations, and yes before no. `left` is how many turns more a filed path can have, and one.
    fn first_unmatched(&self, state: State<'_>, path: Path, left: u32) -> Option<Path>
        requires tidy { Tidy path }
        requires short { path.length + left ≤ 17 }
        ensures found { Finds self.now.claims.now state.entry.table.words.now self.now.pair state.entry.number path left result }
        ensures tidy { IfSome result Tidy }
    {
        if left == 0 {
            return Some(path);
        }
        if any_match(self.claims, self.pair, path, Along::Itself) {
            return None;
        }
        if !any_match(self.claims, self.pair, path, Along::Longer) {
            return Some(path);
        }
        let yes = step_target(state, true)?;
        if let Some(found) = self.first_unmatched(yes, extended(path, true), left - 1) {
            return Some(found);
        }
        let no = step_target(state, false)?;
        self.first_unmatched(no, extended(path, false), left - 1)
    }
}

// The first unmatched path from a pair whose first machine is in a state.
pub fn unmatched_from(claims: &[Claim], pair: u32, state: State<'_>) -> Option<Path>
    ensures found { Lacks claims.now state.entry.table.words.now pair state.entry.number result }
    ensures tidy { IfSome result Tidy }
{
    let tree = Tree { claims, pair };
    let root = Path {
        length: 0,
        turns: 0,
    };
    tree.first_unmatched(state, root, DEPTH)
}
