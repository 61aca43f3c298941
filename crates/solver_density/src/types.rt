// What the density and pressure spinodal searches pass between their functions.

// What stays the same throughout one density search. `start` is the Rust's initial_density, as a number.
#[derive(Clone, Copy, PartialEq)]
pub struct Conditions {
    pub maxdensity: f64,
    pub temperature: f64,
    pub pressure: f64,
    pub start: f64,
}

// The branch of a spinodal: the two cases of DensityInitialization that the Rust takes there.
#[derive(Clone, Copy, Debug, PartialEq, Eq)]
pub enum Branch {
    Vapor,
    Liquid,
}

// What a round of a density search comes to: a number that is not finite, the density looked for, the next density, or
// the unstable region with the error.
#[derive(Clone, Copy, PartialEq)]
pub enum SlopeOutcome {
    NotFinite,
    Converged(f64),
    Next(f64),
    Unstable(f64),
}

// The detours out of the unstable region that lead through the spinodal nearest to the start. Above and below is
// the pressure beside the one looked for, convex and concave its curvature.
#[derive(Clone, Copy, Debug, PartialEq, Eq)]
pub enum Nearest {
    HighDensity,
    AboveConvex,
    BelowConcave,
}

// The detours that lead through the spinodals of both branches.
#[derive(Clone, Copy, Debug, PartialEq, Eq)]
pub enum Both {
    BelowConvex,
    AboveConcave,
}

#[derive(Clone, Copy, Debug, PartialEq, Eq)]
pub enum Detour {
    ByNearest(Nearest),
    ByBoth(Both),
}
