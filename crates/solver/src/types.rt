// What the searches start from and what they hand out.
use std::ops::ControlFlow;

// Where a search starts. The Rust's enum of the same name.
#[derive(Clone, Copy, PartialEq)]
pub enum DensityInitialization {
    Vapor,
    Liquid,
    InitialDensity(f64),
}

// The floats that a search hands out, those it does not use +0.
#[derive(Clone, Copy, Default, PartialEq)]
pub struct Values {
    pub first: f64,
    pub second: f64,
    pub third: f64,
}

// Why a search fails. `number_of` in specs/Answer.antt has document 01's number for each.
#[derive(Clone, Copy, Debug, PartialEq, Eq)]
pub enum Refusal {
    StartNotPositive,
    NotConverged,
    IterationFailed,
    BothPhasesFailed,
    WrongBranch,
    Supercritical,
    NotFinite,
}

// What a search found, or why it failed.
pub type Answer = Result<Values, Refusal>;

// What a round comes to, or where a search stands: the answer, or what the search goes on from.
pub type Progress<S> = ControlFlow<Answer, S>;

// A place of a search: the rounds left after this one, and what they go on from.
#[derive(Clone, Copy, PartialEq)]
pub struct Spot<S> {
    pub rounds: u64,
    pub at: S,
}

// An answer, with the evaluations that led to it.
#[derive(Clone, Copy, PartialEq)]
pub struct Ran {
    pub answer: Answer,
    pub evaluations: u64,
}

// The counters of a place of a search, as a board stores them; those that a place does not use are 0.
#[derive(Clone, Copy, Debug, Default, PartialEq, Eq)]
pub struct Counters {
    pub stage: u64,
    pub tag: u64,
    pub status: u64,
    pub left: u64,
    pub way: u64,
    pub rounds: u64,
}

// A place of a search as numbers.
#[derive(Clone, Copy, PartialEq)]
pub struct Numbers {
    pub counters: Counters,
    pub values: Values,
}
