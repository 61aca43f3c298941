// What the searches of critical_point.rs start from and pass between their functions.

// A temperature and a density.
#[derive(Clone, Copy, Debug, PartialEq)]
pub struct Point {
    pub t: f64,
    pub rho: f64,
}
