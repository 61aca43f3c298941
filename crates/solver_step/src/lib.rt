// The searches of kinds 1 to 4, one evaluation at a time.
#![tactic(auto)]

mod density;
mod spinodal;
mod stable;
mod stored;
mod types;

pub use crate::density::{density_at, density_begin, density_next, phase_answer};
pub use crate::spinodal::{branch_begin, branch_next, spinodal_next, spinodal_start};
pub use crate::stable::{stable_at, stable_begin, stable_next};
pub use crate::stored::{
    density_numbers, density_place_by, spinodal_numbers, spinodal_place_by, stable_numbers,
    stable_place_by,
};
pub use crate::types::{DensitySpot, Phase, SpinodalSpot, StableSpot, Standing};
