// The searches of kinds 8 and 9, one evaluation at a time.
#![tactic(auto)]

mod pressure;
mod stored;
mod temperature;
mod types;

pub use crate::pressure::{pressure_at, pressure_begin, pressure_next};
pub use crate::stored::{
    pressure_numbers, pressure_place_by, temperature_numbers, temperature_place_by,
};
pub use crate::temperature::{temperature_at, temperature_begin, temperature_next};
pub use crate::types::{PressureSpot, TemperatureSpot};
