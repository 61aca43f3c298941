// What a blend is, and what its components make together. All by value.
use jet::Jet;

// The parameters of one component: critical temperature, a, b and kappa.
#[derive(Clone, Copy)]
pub struct Component {
    pub tc: f64,
    pub a: f64,
    pub b: f64,
    pub kappa: f64,
}

// A blend of n components, 1 to 8: their parameters, the interactions k_ij at 8 * i + j, and the mole fractions.
#[derive(Clone, Copy)]
pub struct Blend {
    pub n: usize,
    pub tc: [f64; 8],
    pub a: [f64; 8],
    pub b: [f64; 8],
    pub kappa: [f64; 8],
    pub k_ij: [f64; 64],
    pub x: [f64; 8],
}

// What the components of a blend make together: the density, and its a and b.
#[derive(Clone, Copy)]
pub struct Mixture {
    pub density: Jet,
    pub a: Jet,
    pub b: Jet,
}

// The roots of ak_i * ak_j of two components.
#[derive(Clone, Copy)]
pub struct PairRoots {
    pub r11: Jet,
    pub r12: Jet,
    pub r21: Jet,
    pub r22: Jet,
}
