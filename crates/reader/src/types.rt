// The job that a request asks for, or why it is refused.
ghost use Rattle.std.specs.Prelude.{◌≡◌};
ghost use Rattle.reader.specs.Refusals.{number_of};

use eos::Blend;
use solver::DensityInitialization;
use solver_density::Branch;

// Why a request is refused: the first three by its caller, the rest by its data. In `From` is document 01's number for each.
#[derive(Clone, Copy, Debug, PartialEq, Eq)]
pub enum Refusal {
    Kind,
    Count,
    BlockLength,
    Pairs,
    Components,
    Interactions,
    Fractions,
    FractionSum,
    Conditions,
    // the choice, or the run's maximum density
    Choice,
}

impl From<Refusal> for u64 {
    ghost from_gives = { λ refusal number. number ≡ number_of refusal };

    #[tactic(auto, unfolding(crate::specs::Refusals::number_of))]
    fn from(refusal: Refusal) -> u64 {
        match refusal {
            Refusal::Kind => 2,
            Refusal::Count => 3,
            Refusal::BlockLength => 8,
            Refusal::Pairs => 11,
            Refusal::Components => 12,
            Refusal::Interactions => 13,
            Refusal::Fractions => 14,
            Refusal::FractionSum => 17,
            Refusal::Conditions => 15,
            Refusal::Choice => 16,
        }
    }
}

// What a job does, under the names of the Rust's functions.
#[derive(Clone, Copy)]
pub enum Task {
    // temperature, pressure, where to start
    DensityIteration(f64, f64, DensityInitialization),
    // temperature, pressure
    DensityIterationStable(f64, f64),
    // temperature, starting density
    PressureSpinodal(f64, f64),
    // temperature, branch
    PressureSpinodalBranch(f64, Branch),
    // temperature and starting density, each if given
    CriticalPoint(Option<f64>, Option<f64>),
    // temperature
    Spinodal(f64),
    // temperature; starting density, if given
    CriticalPointBinaryT(f64, Option<f64>),
    // pressure; temperature and starting density, each if given
    CriticalPointBinaryP(f64, Option<f64>, Option<f64>),
}

// A job, with the blend that it searches. On a refusal the blend is empty.
#[derive(Clone, Copy)]
pub struct Job {
    pub task: Result<Task, Refusal>,
    pub blend: Blend,
}
