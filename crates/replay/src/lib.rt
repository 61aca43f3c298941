// A whole run as code: the calls that stand in bytes are made on a fresh board, and what the public sees of each is written.
#![tactic(auto)]

mod making;
mod runs;
mod types;

pub use crate::making::tell_call;
pub use crate::runs::{clear, replay};
pub use crate::types::BadBoard;
