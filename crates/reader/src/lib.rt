// What a job reads of a request, or the refusal: the data's checks 11 to 17 in their order.
#![tactic(auto)]

mod requests;
mod types;

pub use crate::requests::{of_data, read, view};
pub use crate::types::{Job, Refusal, Task};
