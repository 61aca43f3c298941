// The writer of request blocks: from the numbers of a request to its 640 bytes, or the refusal that the board's reader would give.
#![tactic(auto)]

mod packing;
mod writing;

pub use crate::writing::{number, write_block};
