// Jets: polynomials in the marks e0 (degree up to 3), e1, e2 and e3 (up to 1), with document 01's rules for the
// coefficients of a sum, product, quotient, root and logarithm. specs/Coefficients.antt has the rules.
#![tactic(auto)]

mod arith;
mod four;
mod functions;
mod positions;
mod terms;

pub use crate::arith::{
    add, coefficient, derivative, div, div_to, marked, mul, mul_to, neg, number, recip, square,
    sub, with_mark,
};
pub use crate::four::{div_4, ln_4, mul_4, sqrt_4, sqrt_4_from};
pub use crate::functions::{ln, ln_to, sqrt, sqrt_to};

// How many coefficients a jet has.
pub const POSITION_COUNT: usize = 32;

// The coefficients, of e0^i e1^j e2^k e3^l at position i + 4j + 8k + 16l.
#[derive(Clone, Copy)]
pub struct Jet {
    pub c: [f64; POSITION_COUNT],
}
