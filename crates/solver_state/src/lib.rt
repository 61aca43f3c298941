// The searches of all kinds under way, as a board keeps them.
#![tactic(auto)]

mod state;
mod types;

pub use crate::state::{start, step};
pub use crate::types::{Job, State};
