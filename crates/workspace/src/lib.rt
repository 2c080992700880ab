// A workspace of terms that the caller lends, the forms kept in it, and the evaluation of expressions to forms.
#![tactic(auto)]

mod arithmetic;
mod evaluator;
mod group;
pub mod layout;
mod leaves;
mod lengths;
mod level;
mod limits;
mod slots;
mod workspace;

pub use evaluator::{evaluate, evaluate_into};
pub use group::Group;
pub use leaves::{Leaves, Symbols};
pub use lengths::Lengths;
pub use level::{Held, Level};
pub use limits::OverLimits;
pub use slots::Slots;
pub use workspace::{Workspace, compare_forms};
