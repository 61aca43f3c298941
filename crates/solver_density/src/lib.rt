// The searches of density_iteration.rs, run to their end: kinds 1 to 4.
#![tactic(auto)]

mod density;
mod spinodal;
mod stable;
mod types;
mod ways;

pub use crate::density::{
    after_both, after_nearest, conditions, correct, density_iteration, detour_of, found_density,
    slope_round,
};
pub use crate::spinodal::{
    all_finite, branch_answer, branch_start, pressure_spinodal, pressure_spinodal_branch,
    spinodal_round,
};
pub use crate::stable::{density_iteration_stable, lower_potential};
pub use crate::types::{Both, Branch, Conditions, Detour, Nearest, SlopeOutcome};
