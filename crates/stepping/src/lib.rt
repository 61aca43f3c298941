// A job of a request block, one evaluation at a time. specs/ has the definitions, proofs/Laws.antt what holds of every job.
#![tactic(auto)]

mod answers;
mod jobs;
mod types;

pub use crate::answers::{after, answer, outcome};
pub use crate::jobs::{at_end, counters_fit, refused, result, start, step, step_request};
pub use crate::types::{Ended, Work};
