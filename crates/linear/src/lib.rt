// Linear algebra by the documents' stand-ins: the 2 by 2 and 3 by 3 solves and the norm on floats, the smallest eigenvalue with its vector on jets.
#![tactic(auto)]

mod eigen;
mod systems;
mod types;

pub use crate::eigen::smallest_ev;
pub use crate::systems::{norm, solve, solve3};
pub use crate::types::{Eigenpair, ZeroPivot};
