// What the searches of kinds 8 and 9 go on from.

// Two partial densities.
#[derive(Clone, Copy, Debug, PartialEq)]
pub struct Densities {
    pub rho0: f64,
    pub rho1: f64,
}

// A temperature and two partial densities.
#[derive(Clone, Copy, Debug, PartialEq)]
pub struct Unknowns {
    pub t: f64,
    pub rho0: f64,
    pub rho1: f64,
}
