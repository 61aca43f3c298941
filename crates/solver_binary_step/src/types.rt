// The places of the searches of kinds 8 and 9 that ask for an evaluation, each with the numbers that it goes on from.
use solver::Spot;
use solver_binary::{Densities, Unknowns};

// In critical_point_binary_t: the rounds left after this one, and the partial densities.
pub type TemperatureSpot = Spot<Densities>;

// In critical_point_binary_p: the rounds left after this one, and the temperature and partial densities.
pub type PressureSpot = Spot<Unknowns>;
