// A job's search, and a search under way as a board keeps it.
use solver::Numbers;
use solver_density::{Branch, Conditions};

// What the search of each kind works with beside the blend, z0 and z1 being the fractions.
#[derive(Clone, Copy, PartialEq)]
pub enum Job {
    Density(Conditions),
    StableDensity {
        maxdensity: f64,
        temperature: f64,
        pressure: f64,
    },
    PressureSpinodal {
        maxdensity: f64,
        temperature: f64,
        start: f64,
    },
    BranchSpinodal {
        maxdensity: f64,
        temperature: f64,
        branch: Branch,
    },
    CriticalPoint {
        maxdensity: f64,
        temperature: Option<f64>,
        density: Option<f64>,
    },
    StabilitySpinodals {
        maxdensity: f64,
        temperature: f64,
    },
    CriticalPointBinaryT {
        maxdensity: f64,
        z0: f64,
        z1: f64,
        temperature: f64,
        density: Option<f64>,
    },
    CriticalPointBinaryP {
        maxdensity: f64,
        z0: f64,
        z1: f64,
        pressure: f64,
        temperature: Option<f64>,
        density: Option<f64>,
    },
}

// Where a search stands, the evaluations made, and the density of the latest one (+0 before any).
#[derive(Clone, Copy, PartialEq)]
pub struct State {
    pub numbers: Numbers,
    pub evaluations: u64,
    pub latest: f64,
}
