// The places of a search that ask for an evaluation, each with the numbers that it goes on from.
use solver::Spot;
use solver_critical::Point;

// In critical_point_hkm: the rounds left after this one, and where it is.
pub type HkmSpot = Spot<Point>;

// In the search of kinds 5 and 7: from a given temperature, or in a trial, the trials counted from 0.
#[derive(Clone, Copy, PartialEq)]
pub enum CriticalSpot {
    Given(HkmSpot),
    Trial { trial: u64, at: HkmSpot },
}

// In calculate_spinodal: the rounds left after this one, and the density.
pub type StabilitySpot = Spot<f64>;

// In the search of kind 6: its critical point, the vapour's spinodal with the critical density, or the liquid's
// with the vapour's density.
#[derive(Clone, Copy, PartialEq)]
pub enum SpinodalsSpot {
    CriticalSearch(CriticalSpot),
    VaporSpinodal { critical: f64, at: StabilitySpot },
    LiquidSpinodal { vapor: f64, at: StabilitySpot },
}
