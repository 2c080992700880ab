// Why a walk of the second machine is refused.
ghost use Rattle.std.specs.Prelude.{◌≡◌};
ghost use Rattle.walk.specs.declared.fault.WalkFault.TheVariants as WalkFault;

use workspace::OverLimits;

// A value over the limits or a seventeenth output, or a turn that is not settled, with its step.
// No `Option`: both are refusals, each with its number.
#[derive(Clone, Copy)]
pub enum WalkFault {
    OverLimits,
    Unsettled(usize),
}

impl From<OverLimits> for WalkFault {
    ghost from_gives = { λ e f. f ≡ WalkFault.OverLimits };

    fn from(e: OverLimits) -> WalkFault {
        WalkFault::OverLimits
    }
}
