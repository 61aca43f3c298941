// A quarter of the board: a queue's jobs and its running search, in 6,144 lent bytes. Definitions in board_spec's specs/Quarter.antt.
#![tactic(auto)]

mod bytes;
mod jobs;
mod quotes;
mod ranges;
mod state;
mod turns;

pub use crate::bytes::{Block, Quarter};
pub use crate::jobs::submit_quarter;
pub use crate::quotes::turns_left;
pub use crate::ranges::quarter_fits;
pub use crate::state::load_state;
pub use crate::turns::turn_quarter;
