// The evaluations that searches ask for, each equal to one definition: pressures and potentials along the density, the
// conditions of criticality and of stability.
#![tactic(auto)]

mod critical_point;
mod critical_point_binary;
mod mole_numbers;
mod one_component;
mod residual;
mod two_components;
mod types;

pub use crate::critical_point::{criticality_conditions, stability_condition};
pub use crate::critical_point_binary::{criticality_conditions_p, criticality_conditions_t};
pub use crate::residual::{chemical_potential, p_dpdrho, p_dpdrho_d2pdrho2};
pub use crate::types::{Condition, Criticality, Pressure, PressureCriticality, Stability};
