// What becomes of a test that was put: it becomes known, or its answer must be settled.
// Slots, known tests and outputs are lent one by one: each has an owner of its own.
ghost use Rattle.std.specs.Prelude.{◌≡◌, ◌+◌, ◌<◌, [], ◌∷◌, ◌++◌, length};
ghost use Rattle.workspace.specs.Views.{forms};
ghost use Rattle.walk.specs.Settled.{settled, all};
ghost use Rattle.walk.specs.Seen.{known_seen, at_hand, KeptBeforeKnown};
ghost use Rattle.walk.specs.Taking.{put_seen};

use crate::known::{KnownTests, Noted};
use crate::settling::is_settled;
use domain::Domain;
use expression::test::Test;
use workspace::Slots;
use workspace::layout::{KNOWN, LEFT, RIGHT};

// The test at hand becomes known with this answer.
pub fn learn<D: Domain>(slots: &mut Slots<'_, D>, known: &mut KnownTests, test: Noted)
    requires { known.old.count < 24 }
    ensures known { known_seen known.new.items (forms slots.new) 0 known.new.count ≡ known_seen known.old.items (forms slots.old) 0 known.old.count ++ (at_hand (forms slots.old) test ∷ []) }
    ensures count { known.new.count ≡ known.old.count + 1 }
    ensures kept { KeptBeforeKnown (forms slots.old) (forms slots.new) }
{
    let first = KNOWN + 2 * known.count;
    slots.copy(LEFT, first);
    slots.copy(RIGHT, first + 1);
    known.push(test);
}

// The test that was put, if any, becomes known with the turn taken.
pub fn learn_put<D: Domain>(
    slots: &mut Slots<'_, D>,
    known: &mut KnownTests,
    test: Option<Test>,
    turn: bool,
)
    requires { known.old.count < 24 }
    ensures known { known_seen known.new.items (forms slots.new) 0 known.new.count ≡ known_seen known.old.items (forms slots.old) 0 known.old.count ++ put_seen test turn (forms slots.old) }
    ensures count { known.new.count ≡ known.old.count + length (put_seen test turn (forms slots.old)) }
    ensures kept { KeptBeforeKnown (forms slots.old) (forms slots.new) }
{
    if let Some(test) = test {
        learn(slots, known, Noted { test, says: turn });
    }
}

// Whether the turn is settled for the test that was put, if any.
pub fn is_put_settled<D: Domain>(
    slots: &Slots<'_, D>,
    known: &KnownTests,
    test: Option<Test>,
    turn: bool,
) -> bool
    ensures { result ≡ all (settled D.ops (known_seen known.now.items (forms slots.now) 0 known.now.count)) (put_seen test turn (forms slots.now)) }
{
    match test {
        Some(test) => is_settled(slots, known, Noted { test, says: turn }),
        None => true,
    }
}
