// The states of a kept pair.
ghost use Rattle.std.specs.Prelude.{◌≡◌, true};
ghost use Rattle.rules.specs.Kept.{is_kept, kept_pair};
ghost use Rattle.judgement.specs.Walks.{StandsAt};

use proposal::pair::PairHead;
use rules::counts::Counts;
use rules::pairs::number_at;

// The states of a kept pair, with its counts; pair 0 stands in state 0 of both machines.
pub fn states_of(counts: Counts, pair: &[u32]) -> PairHead
    requires { is_kept counts pair.now ≡ true }
    ensures { StandsAt result (kept_pair counts pair.now) }
{
    PairHead::from(number_at(pair, 0))
}
