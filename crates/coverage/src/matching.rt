// Claims whose first path is a given one, or goes on behind it.
ghost use Rattle.std.specs.Prelude.{◌≡◌, ◌&&◌, if◌then◌else◌, ◌==◌, nat_lt};
ghost use Rattle.proposal.specs.Claims.{turns_of, claim_of};
ghost use Rattle.coverage.specs.Matching.{same_turns, start_of, path_of, is_longer, matches, any_matches};

use proposal::claim::{Claim, Path};

// Which filed paths are looked for: a path itself, or longer ones that begin with it.
#[derive(Clone, Copy, Debug, PartialEq, Eq)]
pub enum Along {
    Itself,
    Longer,
}

// The start pair of a claim. A method would need a trait here, since `Claim` is a type of `proposal`.
fn start_of(claim: Claim) -> u32
    ensures { result ≡ start_of claim }
{
    match claim {
        Claim::Live { start, .. } | Claim::Infeasible { start, .. } => start,
    }
}

// The first path of a claim.
// Not one with `start_of`: they are two fields of a claim.
fn path_of(claim: Claim) -> Path
    ensures { result ≡ path_of claim }
{
    match claim {
        Claim::Live { first, .. } | Claim::Infeasible { first, .. } => first,
    }
}

// Whether the first `count` turns are the same. With 32 or more these are all that a word has.
fn same_turns(count: u32, one: u32, two: u32) -> bool
    ensures { result ≡ same_turns count one two }
{
    match 1u32.checked_shl(count) {
        Some(behind) => one % behind == two % behind,
        None => one == two,
    }
}

// Whether a filed path has the length of a path, or is longer.
fn has_length(filed: u32, length: u32, along: Along) -> bool
    ensures { result ≡ (if is_longer along then nat_lt length filed else (length == filed)) }
{
    match along {
        Along::Itself => length == filed,
        Along::Longer => length < filed,
    }
}

// Whether a filed path is this path, or a longer one that begins with it.
// (The path is what is looked for, and `along` says how.)
fn is_along(filed: Path, path: Path, along: Along) -> bool
    ensures { result ≡ ((if is_longer along then nat_lt path.length filed.length else (path.length == filed.length)) && same_turns path.length path.turns filed.turns) }
{
    has_length(filed.length, path.length, along) && same_turns(path.length, path.turns, filed.turns)
}

// Whether a claim is from this pair along this path, or along a longer one that begins with it.
fn is_match(claim: Claim, pair: u32, path: Path, along: Along) -> bool
    ensures { result ≡ matches (is_longer along) pair (turns_of path) (claim_of claim) }
{
    start_of(claim) == pair && is_along(path_of(claim), path, along)
}

// Whether any claim is.
pub fn any_match(claims: &[Claim], pair: u32, path: Path, along: Along) -> bool
    ensures { result ≡ any_matches (is_longer along) claims.now pair path }
{
    claims
        .iter()
        .any(|claim| is_match(*claim, pair, path, along))
}
