use kern_meaning::PairKind;
use pf_geom::Axis;
use pf_num::OutOfMemory;
use std::alloc::AllocError;

/// Why a particle stops a run.
#[derive(Clone, Copy, Debug, PartialEq, Eq, Hash)]
pub enum What {
    /// A pair with an entry of its list faults in the statement of this number, from 1.
    Pair(PairKind, u32),
    /// A component of the FORCE variable of this number, from 1, isn't an `i64`.
    Sum(u32),
    /// A half kick takes the velocity on this axis past 2^47.
    Fast(Axis),
    /// A drift takes the position too far on this axis.
    Escaped(Axis),
}

/// What stops a run, and at which particle.
#[derive(Clone, Copy, Debug, PartialEq, Eq, Hash)]
pub struct Fault {
    pub id: u32,
    pub what: What,
}

/// Why a part of a step has no answer.
#[derive(Clone, Copy, Debug, PartialEq, Eq, Hash)]
pub enum PhaseFault {
    /// A particle has this fault.
    Numeric(Fault),
    /// Memory ran out.
    Memory,
}

impl From<AllocError> for PhaseFault {
    ghost use Rattle.std.specs.Prelude.{◌≡◌};
    ghost use Rattle.run_model.specs.declared.fault.PhaseFault.TheVariants.{Memory};

    ghost from_gives = { λ _ fault. fault ≡ Memory };

    fn from(_error: AllocError) -> PhaseFault {
        PhaseFault::Memory
    }
}

impl From<OutOfMemory> for PhaseFault {
    ghost use Rattle.std.specs.Prelude.{◌≡◌};
    ghost use Rattle.run_model.specs.declared.fault.PhaseFault.TheVariants.{Memory};

    ghost from_gives = { λ _ fault. fault ≡ Memory };

    fn from(_error: OutOfMemory) -> PhaseFault {
        PhaseFault::Memory
    }
}

impl From<Fault> for PhaseFault {
    ghost use Rattle.std.specs.Prelude.{◌≡◌};
    ghost use Rattle.run_model.specs.declared.fault.PhaseFault.TheVariants.{Numeric};

    ghost from_gives = { λ numeric fault. fault ≡ Numeric numeric };

    fn from(numeric: Fault) -> PhaseFault {
        PhaseFault::Numeric(numeric)
    }
}

/// Why a step has no text.
#[derive(Clone, Copy, Debug, PartialEq, Eq, Hash)]
pub enum StepFault {
    /// A particle has this fault.
    Numeric(Fault),
    /// The lists have more entries than the limit, namely so many.
    Lists(u64),
    /// Memory ran out.
    Memory,
}

impl From<AllocError> for StepFault {
    ghost use Rattle.std.specs.Prelude.{◌≡◌};
    ghost use Rattle.run_model.specs.declared.fault.StepFault.TheVariants.{Memory};

    ghost from_gives = { λ _ fault. fault ≡ Memory };

    fn from(_error: AllocError) -> StepFault {
        StepFault::Memory
    }
}

impl From<OutOfMemory> for StepFault {
    ghost use Rattle.std.specs.Prelude.{◌≡◌};
    ghost use Rattle.run_model.specs.declared.fault.StepFault.TheVariants.{Memory};

    ghost from_gives = { λ _ fault. fault ≡ Memory };

    fn from(_error: OutOfMemory) -> StepFault {
        StepFault::Memory
    }
}

impl From<Fault> for StepFault {
    ghost use Rattle.std.specs.Prelude.{◌≡◌};
    ghost use Rattle.run_model.specs.declared.fault.StepFault.TheVariants.{Numeric};

    ghost from_gives = { λ numeric fault. fault ≡ Numeric numeric };

    fn from(numeric: Fault) -> StepFault {
        StepFault::Numeric(numeric)
    }
}

impl From<PhaseFault> for StepFault {
    ghost use Rattle.std.specs.Prelude.{◌≡◌};
    ghost use Rattle.run_model.specs.Answers.{of_phase};

    ghost from_gives = { λ phase fault. fault ≡ of_phase phase };

    fn from(phase: PhaseFault) -> StepFault {
        match phase {
            PhaseFault::Numeric(numeric) => StepFault::Numeric(numeric),
            PhaseFault::Memory => StepFault::Memory,
        }
    }
}
