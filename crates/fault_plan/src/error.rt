// Why a text is no plan.
ghost use Rattle.std.specs.Prelude.{◌≡◌};
ghost use Rattle.fault_plan.specs.Refusals.{same_refusal};
ghost use Rattle.fault_plan.specs.declared.error.PlanError.TheVariants.{NoMemory};

use flop_base::NoMemory;
use floppy_jobs::JobError;
use thiserror::Error;

/// Why a plan wasn't read.
#[derive(Clone, Copy, Debug, PartialEq, Eq, Error)]
pub enum PlanError {
    /// The first line that isn't understood, counted from 1; 0 where the text is too long.
    #[error("plan line {line} not understood")]
    BadLine { line: usize },
    /// Memory ran out. This says nothing about the text.
    #[error("out of memory")]
    NoMemory,
}

impl From<JobError> for PlanError {
    ghost from_gives = { λ refused error. error ≡ same_refusal refused };

    fn from(refused: JobError) -> Self {
        match refused {
            JobError::BadLine { line } => PlanError::BadLine { line },
            JobError::NoMemory => PlanError::NoMemory,
        }
    }
}

impl From<NoMemory> for PlanError {
    ghost from_gives = { λ _ error. error ≡ NoMemory };

    fn from(_: NoMemory) -> Self {
        PlanError::NoMemory
    }
}
