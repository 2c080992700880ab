// Why the end pair of a claim is not reached.
ghost use Rattle.std.specs.Prelude.{◌≡◌};
ghost use Rattle.rules.specs.declared.fault.EndFault.TheVariants as EndFault;

use machine::which::Which;
use workspace::OverLimits;

// A value over the limits, a register that differs, or a fact that is not settled, by its place among the facts.
#[derive(Clone, Copy)]
pub enum EndFault {
    OverLimits,
    Register { machine: Which, register: u32 },
    Fact(usize),
}

impl From<OverLimits> for EndFault {
    ghost from_gives = { λ e f. f ≡ EndFault.OverLimits };

    fn from(e: OverLimits) -> EndFault {
        EndFault::OverLimits
    }
}
