// The searches of critical_point.rs, run to their end: kinds 5 to 7.
#![tactic(auto)]

mod critical;
mod spinodals;
mod types;

pub use crate::critical::{
    all_finite, critical_point, critical_round, entries, floor, has_converged, limit, solved,
    start_density, trial_temperature,
};
pub use crate::spinodals::{both_answer, liquid_start, spinodal, spinodal_start, stability_round};
pub use crate::types::Point;
