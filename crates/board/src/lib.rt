// The board's calls on lent bytes, for any bytes and any arguments. What each makes of them is in board_spec's specs/Board.antt.
#![tactic(auto)]

mod looks;
mod quotes;
mod ranges;
mod submits;
mod telling;
mod turns;
mod types;

pub use crate::looks::look;
pub use crate::quotes::quote;
pub use crate::ranges::fits;
pub use crate::submits::submit;
pub use crate::telling::{number, tell_look, tell_quote, tell_submit, tell_turn};
pub use crate::turns::turn;
pub use crate::types::{Refusal, Reply, Shown};
