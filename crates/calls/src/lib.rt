// Calls and their public answers as bytes: the format of a whole run. specs/Calls.antt says what it is.
#![tactic(auto)]

mod reading;
mod types;
mod writer;

pub use crate::reading::call_at;
pub use crate::types::Call;
pub use crate::writer::{put_answer, put_framed};
