// Whether the answer of the test at hand is settled; its two sides are kept in slots LEFT and RIGHT.
// Slots, known tests and outputs are lent one by one: each has an owner of its own.
ghost use Rattle.std.specs.Prelude.{◌≡◌, ◌<◌, ◌||◌, [], slice_index_or};
ghost use Rattle.std.specs.Bool.{beq};
ghost use Rattle.expression.specs.Values.{answer};
ghost use Rattle.forms.specs.Forms.{fixed};
ghost use Rattle.workspace.specs.Layout.{left_at, right_at};
ghost use Rattle.workspace.specs.Views.{forms};
ghost use Rattle.walk.specs.Settled.{settled, twin, any, by_constants, one_form};
ghost use Rattle.walk.specs.Seen.{known_seen, known_at, at_hand};

use crate::known::{KnownTests, Noted};
use domain::Domain;
use expression::test::Test;
use workspace::Slots;
use workspace::layout::{KNOWN, LEFT, RIGHT};

// The answer of a test.
fn answer_of<D: Domain>(test: Test, v: D, w: D) -> bool
    ensures { result ≡ answer D.ops test v w }
{
    match test {
        Test::Same => v.same(w),
        Test::Below => v.below(w),
    }
}

// Whether known test j is the one at hand, with its answer.
fn is_twin<D: Domain>(slots: &Slots<'_, D>, known: &KnownTests, asked: Noted, j: usize) -> bool
    requires { j < known.now.count }
    ensures { result ≡ twin D.ops (at_hand (forms slots.now) asked) (known_at known.now.items (forms slots.now) j) }
{
    let noted = known.items[j];
    asked.test == noted.test
        && slots.same(LEFT, KNOWN + 2 * j)
        && slots.same(RIGHT, KNOWN + 2 * j + 1)
        && asked.says == noted.says
}

// Whether the test at hand is known with this answer.
fn is_known<D: Domain>(slots: &Slots<'_, D>, known: &KnownTests, asked: Noted) -> bool
    ensures { result ≡ any (twin D.ops (at_hand (forms slots.now) asked)) (known_seen known.now.items (forms slots.now) 0 known.now.count) }
{
    (0..known.count).any(|j| is_twin(slots, known, asked, j))
}

// Whether both sides are constants, and the domain gives this answer.
fn by_constants<D: Domain>(slots: &Slots<'_, D>, asked: Noted) -> bool
    ensures { result ≡ by_constants D.ops asked.test asked.says (fixed D.ops (slice_index_or (forms slots.now) left_at [])) (fixed D.ops (slice_index_or (forms slots.now) right_at [])) }
{
    let Some(v) = slots.fixed(LEFT) else {
        return false;
    };
    let Some(w) = slots.fixed(RIGHT) else {
        return false;
    };
    answer_of(asked.test, v, w) == asked.says
}

// Whether the answer of the test at hand is settled.
pub fn is_settled<D: Domain>(slots: &Slots<'_, D>, known: &KnownTests, asked: Noted) -> bool
    ensures { result ≡ settled D.ops (known_seen known.now.items (forms slots.now) 0 known.now.count) (at_hand (forms slots.now) asked) }
{
    is_known(slots, known, asked)
        || by_constants(slots, asked)
        || asked.test == Test::Same && slots.same(LEFT, RIGHT) && asked.says
}
