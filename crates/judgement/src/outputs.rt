// The outputs of two paths, compared.
ghost use Rattle.std.specs.Prelude.{◌≡◌, ◌<◌};
ghost use Rattle.workspace.specs.Views.{forms};
ghost use Rattle.walk.specs.Seen.{outputs_seen};
ghost use Rattle.correspondence.specs.Judgement.{same_outputs};
ghost use Rattle.judgement.specs.Seen.{told_outputs, first_outputs, second_outputs, output_at, same_output};

use domain::Domain;
use walk::outputs::Outputs;
use workspace::Slots;
use workspace::layout::{FIRST_OUTPUTS, SECOND_OUTPUTS};

// The first output that differs or is missing.
#[derive(Clone, Copy, PartialEq, Eq)]
pub struct OtherOutput {
    pub place: usize,
}

// Whether output j of both paths has one port and one form.
fn is_same_output<D: Domain>(
    slots: &Slots<'_, D>,
    first: &Outputs,
    second: &Outputs,
    j: usize,
) -> bool
    requires { (j < first.now.count) × (j < second.now.count) }
    ensures { result ≡ same_output D.ops (output_at first.now.items (forms slots.now) first_outputs j) (output_at second.now.items (forms slots.now) second_outputs j) }
{
    first.items[j] == second.items[j] && slots.same(FIRST_OUTPUTS + j, SECOND_OUTPUTS + j)
}

// Compares the outputs of the first path with those of the second, ports and forms; the first that differs or is missing is told.
pub fn compare_outputs<D: Domain>(
    slots: &Slots<'_, D>,
    first: &Outputs,
    second: &Outputs,
) -> Result<(), OtherOutput>
    ensures { told_outputs result ≡ same_outputs D.ops 0 (outputs_seen first.now.items (forms slots.now) first_outputs first.now.count) (outputs_seen second.now.items (forms slots.now) second_outputs second.now.count) }
{
    let common = first.count.min(second.count);
    if let Some(j) = (0..common).find(|j| !is_same_output(slots, first, second, *j)) {
        return Err(OtherOutput { place: j });
    }
    if first.count == second.count {
        Ok(())
    } else {
        Err(OtherOutput { place: common })
    }
}
