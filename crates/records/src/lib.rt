// The end of a job and its record; a whole answer without a board.
#![tactic(auto)]

mod outcomes;
mod requests;
mod types;
mod writer;

pub use crate::outcomes::{refused, run_job};
pub use crate::requests::{answer, fits, number};
pub use crate::types::{Outcome, Unanswered};
pub use crate::writer::{write_record, write_sealed};
