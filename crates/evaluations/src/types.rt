// What the evaluations yield, each a record of floats by value, and the jets that they come from.
use jet::Jet;

// Pressure, its slope and its curvature along the density.
#[derive(Clone, Copy)]
pub struct Pressure {
    pub p: f64,
    pub dp_drho: f64,
    pub d2p_drho2: f64,
}

// The two criticality conditions, and their derivatives by the two unknowns of a search: temperature and density, or two partial densities.
#[derive(Clone, Copy)]
pub struct Criticality {
    pub l: f64,
    pub c2: f64,
    pub dl_d0: f64,
    pub dl_d1: f64,
    pub dc2_d0: f64,
    pub dc2_d1: f64,
}

// A condition, and its derivatives by three unknowns: the temperature and two partial densities.
#[derive(Clone, Copy)]
pub struct Condition {
    pub value: f64,
    pub d0: f64,
    pub d1: f64,
    pub d2: f64,
}

// The two criticality conditions and that of a set pressure.
#[derive(Clone, Copy)]
pub struct PressureCriticality {
    pub l: Condition,
    pub c2: Condition,
    pub p: Condition,
}

// The stability condition, and its derivative by the density.
#[derive(Clone, Copy)]
pub struct Stability {
    pub f: f64,
    pub df: f64,
}

// The two criticality conditions as jets.
#[derive(Clone, Copy)]
pub struct ConditionJets {
    pub l: Jet,
    pub c2: Jet,
}

// The density of two components, the molar volume and the fractions, as jets.
#[derive(Clone, Copy)]
pub struct BinaryState {
    pub density: Jet,
    pub v: Jet,
    pub z0: Jet,
    pub z1: Jet,
}

// The entries of a symmetric 2 by 2 matrix of jets.
#[derive(Clone, Copy)]
pub struct SymmetricMatrix {
    pub m11: Jet,
    pub m12: Jet,
    pub m22: Jet,
}
