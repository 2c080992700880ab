// Why a claim is not accepted by the rules.
ghost use Rattle.std.specs.Prelude.{◌≡◌};
ghost use Rattle.judgement.specs.declared.fault.RuleFault.TheVariants as RuleFault;
ghost use Rattle.judgement.specs.Faults.{of_walk, of_end};

use crate::outputs::OtherOutput;
use machine::which::Which;
use rules::fault::EndFault;
use walk::fault::WalkFault;
use workspace::OverLimits;

// A step that is impossible, a value over the limits, or the first rule that fails.
#[derive(Clone, Copy)]
pub enum RuleFault {
    ImpossibleStep { machine: Which, step: usize },
    OverLimits,
    NotInfeasible,
    Unsettled(usize),
    Outputs(usize),
    EndStates,
    Register { machine: Which, register: u32 },
    Fact(usize),
}

impl From<OverLimits> for RuleFault {
    ghost from_gives = { λ e f. f ≡ RuleFault.OverLimits };

    fn from(e: OverLimits) -> RuleFault {
        RuleFault::OverLimits
    }
}

impl From<OtherOutput> for RuleFault {
    ghost from_gives = { λ e f. f ≡ RuleFault.Outputs e.place };

    fn from(e: OtherOutput) -> RuleFault {
        RuleFault::Outputs(e.place)
    }
}

impl From<WalkFault> for RuleFault {
    ghost from_gives = { λ e f. f ≡ of_walk e };

    fn from(e: WalkFault) -> RuleFault {
        match e {
            WalkFault::OverLimits => RuleFault::OverLimits,
            WalkFault::Unsettled(step) => RuleFault::Unsettled(step),
        }
    }
}

impl From<EndFault> for RuleFault {
    ghost from_gives = { λ e f. f ≡ of_end e };

    fn from(e: EndFault) -> RuleFault {
        match e {
            EndFault::OverLimits => RuleFault::OverLimits,
            EndFault::Register { machine, register } => RuleFault::Register { machine, register },
            EndFault::Fact(place) => RuleFault::Fact(place),
        }
    }
}
