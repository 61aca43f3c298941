// Document 01's request block: its four parts, the numbers that a kind reads of them, and the checks of these.
#![tactic(auto)]

mod blend;
mod checks;
mod numbers;
mod pairs;
mod types;

pub use crate::blend::{
    empty, keep_component_alone, read_blend_components, read_blend_fractions,
    read_blend_interactions,
};
pub use crate::checks::{choice_fits, conditions_fit, is_plus_zero, positive, sum_fits};
pub use crate::numbers::{conditions, reads_fractions};
pub use crate::pairs::{offset, pairs_fit};
pub use crate::types::{Conditions, Numbers};
