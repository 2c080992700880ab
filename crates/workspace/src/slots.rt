// Forms in slots: the terms above a level, with the lengths of the forms.
ghost use Rattle.std.specs.Prelude.{◌≡◌, ℕ, ◌≤◌, length, slice_index};
ghost use Rattle.workspace.specs.Layout.{slot_count, terms_needed};

use crate::lengths::Lengths;
use forms::Term;

#[derive(Drop)]
pub struct Slots<'a, D> {
    pub row: &'a mut [Term<D>],
    pub lens: Lengths,
    ghost count: { length lens.of ≡ slot_count },
    ghost few: { (k : ℕ) → slice_index lens.of k ≤ 16 },
    ghost room: { terms_needed ≤ length row.now },
}
