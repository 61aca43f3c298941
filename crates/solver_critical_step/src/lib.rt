// The searches of kinds 5 to 7, one evaluation at a time.
#![tactic(auto)]

mod critical;
mod spinodals;
mod stored;
mod types;

pub use crate::critical::{critical_at, critical_begin, critical_next};
pub use crate::spinodals::{spinodals_at, spinodals_begin, spinodals_next};
pub use crate::stored::{
    critical_numbers, critical_place_by, spinodals_numbers, spinodals_place_by,
};
pub use crate::types::{CriticalSpot, HkmSpot, SpinodalsSpot, StabilitySpot};
