// Calls from standard input, made on a fresh board, with a readable line for each. The programs `replay_calls`, `replay_calls_cut` and
// `replay_calls_other` are this on one input each.
#![tactic(auto)]

mod input;
mod lines;
mod saying;

pub use crate::input::answer_input;
