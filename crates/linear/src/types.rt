// What a solve refuses, and an eigenvalue with its vector.
use jet::Jet;

// A system's pivot is zero: document 01's refusal 23.
#[derive(Clone, Copy, Debug, PartialEq, Eq)]
pub struct ZeroPivot;

// An eigenvalue of a 2 by 2 matrix, and the entries of its vector.
#[derive(Clone, Copy)]
pub struct Eigenpair {
    pub l: Jet,
    pub u1: Jet,
    pub u2: Jet,
}
