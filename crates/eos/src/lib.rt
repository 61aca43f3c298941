// The equation of state of Peng and Robinson: blends, their maximum density, and the Helmholtz energy on jets.
#![tactic(auto)]

mod cubic;
pub mod helmholtz;
mod mixture;
mod types;

pub use crate::cubic::{blend, component, components, compute_max_density};
pub use crate::types::{Blend, Component, PairRoots};
