// Lines of text: numbers in decimal and hexadecimal, and the line that document 01's printing program writes of a record.
#![tactic(auto)]

mod digits;
mod line;

pub use crate::digits::put_digits;
pub use crate::line::{put_line, put_number};
