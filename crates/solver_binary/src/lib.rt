// The searches for critical points of two components at a set temperature or pressure, run to their end: kinds 8 and 9.
#![tactic(auto)]

mod pressure;
mod temperature;
mod types;

pub use crate::pressure::{critical_point_binary_p, round_p, start_unknowns};
pub use crate::temperature::{critical_point_binary_t, round_t, start_densities};
pub use crate::types::{Densities, Unknowns};
