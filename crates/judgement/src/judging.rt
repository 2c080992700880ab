// A claim judged, its paths first.
ghost use Rattle.std.specs.Prelude.{◌≡◌, ◌≤◌, true, length};
ghost use Rattle.rules.specs.Kept.{is_kept, kept_pair};
ghost use Rattle.rules.specs.Told.{Substituted};
ghost use Rattle.judgement.specs.Judging.{JudgesRules};

use crate::fault::RuleFault;
use crate::states::states_of;
use crate::tables::Tables;
use crate::walks::walk_both;
use domain::Domain;
use rules::ending::check_end;
use rules::pairs::KeptPair;
use workspace::Slots;

// A claim with both its paths: the words of its pairs, of which pair 0 has none, and its own words, which hold the substitution.
// Words and not kept pairs: they are kept by the counts of the tables, which stand beside the claim.
#[derive(Clone, Copy)]
pub struct LiveClaim<'a> {
    pub start: &'a [u32],
    pub end: &'a [u32],
    pub words: &'a [u32],
}

// The rules of a live claim whose paths are possible.
fn live_rules<D: Domain>(
    slots: &mut Slots<'_, D>,
    tables: Tables<'_>,
    claim: LiveClaim<'_>,
    first: &[bool],
    second: &[bool],
) -> Result<(), RuleFault>
    requires start { is_kept tables.counts claim.start.now ≡ true }
    requires end { is_kept tables.counts claim.end.now ≡ true }
    requires substituted { Substituted (kept_pair tables.counts claim.end.now).symbols claim.words.now }
    requires short { length first.now ≤ 16 }
    ensures { JudgesRules D.ops tables.entry.first.words.now tables.entry.second.words.now tables.entry.counts claim.entry.start.now claim.entry.end.now claim.entry.words.now first.now second.now result }
{
    let ends = walk_both(slots, tables, claim.start, first, second)?;
    let there = states_of(tables.counts, claim.end);
    if ends.first != there.first || ends.second != there.second {
        return Err(RuleFault::EndStates);
    }
    let end = KeptPair {
        counts: tables.counts,
        words: claim.end,
    };
    check_end(slots, &end, claim.words, &ends.known)?;
    Ok(())
}
