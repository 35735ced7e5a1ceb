//! The plan text: the faults of each drive and the timing (pace) of the machine, one line each.
#![tactic(auto)]

mod error;
mod fields;
mod line;
mod plan;

pub use error::PlanError;
pub use line::{PlanLine, PlannedDrive};
pub use plan::{FaultPlan, plan_of};
