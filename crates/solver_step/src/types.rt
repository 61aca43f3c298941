// The places of a search that ask for an evaluation, each with the numbers that it goes on from.
use solver::{Refusal, Spot};
use solver_density::{Both, Nearest};
use std::ops::ControlFlow;

// In a spinodal search, of kind 3 or 4 or inside a density search: the rounds left after this one, and the density.
pub type SpinodalSpot = Spot<f64>;

// How a density search ended: the density found, or why it failed.
pub type Phase = Result<f64, Refusal>;

// Where a density search stands, alone or as a part of kind 2: how it ended, or what it goes on from.
pub type Standing<S> = ControlFlow<Phase, S>;

// In a density search, of kind 1 or inside kind 2. `left` is the rounds left after this one.
#[derive(Clone, Copy, PartialEq)]
pub enum DensitySpot {
    First,
    Slope {
        left: u64,
        rho: f64,
    },
    Curvature {
        left: u64,
        rho: f64,
        error: f64,
    },
    NearestSpinodal {
        left: u64,
        way: Nearest,
        at: SpinodalSpot,
    },
    LiquidSpinodal {
        left: u64,
        way: Both,
        at: SpinodalSpot,
    },
    VaporSpinodal {
        left: u64,
        way: Both,
        liquid: f64,
        at: SpinodalSpot,
    },
}

// In the search of kind 2: a phase's search, or one of the two potentials.
#[derive(Clone, Copy, PartialEq)]
pub enum StableSpot {
    LiquidSearch(DensitySpot),
    VaporSearch {
        liquid: Phase,
        at: DensitySpot,
    },
    LiquidPotential {
        liquid: f64,
        vapor: f64,
    },
    VaporPotential {
        liquid: f64,
        vapor: f64,
        potential: f64,
    },
}
