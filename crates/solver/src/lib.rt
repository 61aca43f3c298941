// What all searches share: their answers, and in specs/ what a search is.
#![tactic(auto)]

mod answer;
mod search;
mod stored;
mod types;

pub use crate::answer::{status, values};
pub use crate::search::{onward, rounds};
pub use crate::stored::{answer_by, ended_numbers, in_ranges};
pub use crate::types::{
    Answer, Counters, DensityInitialization, Numbers, Progress, Ran, Refusal, Spot, Values,
};
