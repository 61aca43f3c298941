// The coefficients along e0 alone: positions 0 to 3 of a product, a quotient, a root and a logarithm, without a loop.
// The evaluations along the density need no others, and spend most of their time here.
ghost use Rattle.std.specs.Prelude.{◌≡◌, ◌∷◌, replicate};
ghost use Rattle.float.specs.Ops.{f0};
ghost use Rattle.float.specs.Root.{root};
ghost use Rattle.jet.specs.Coefficients.{at, product_of, quotient_of, root_of, logarithm_of, cut};

use crate::{Jet, POSITION_COUNT};

// The jet with these four coefficients, and +0 at the other positions.
fn along(c0: f64, c1: f64, c2: f64, c3: f64) -> Jet
    ensures { result.c ≡ c0 ∷ c1 ∷ c2 ∷ c3 ∷ replicate 28 f0 }
{
    let mut c = [0.0; POSITION_COUNT];
    c[0] = c0;
    c[1] = c1;
    c[2] = c2;
    c[3] = c3;
    Jet { c }
}

pub fn mul_4(a: Jet, b: Jet) -> Jet
    ensures { result.c ≡ cut 4 (product_of a.c b.c) }
{
    let x0 = a.c[0];
    let x1 = a.c[1];
    let x2 = a.c[2];
    let x3 = a.c[3];
    let y0 = b.c[0];
    let y1 = b.c[1];
    let y2 = b.c[2];
    let y3 = b.c[3];
    along(
        x0 * y0,
        x0 * y1 + x1 * y0,
        x0 * y2 + x1 * y1 + x2 * y0,
        x0 * y3 + x1 * y2 + x2 * y1 + x3 * y0,
    )
}

pub fn div_4(a: Jet, b: Jet) -> Jet
    ensures { result.c ≡ cut 4 (quotient_of a.c b.c) }
{
    let y0 = b.c[0];
    let y1 = b.c[1];
    let y2 = b.c[2];
    let y3 = b.c[3];
    let q0 = a.c[0] / y0;
    let q1 = (a.c[1] - q0 * y1) / y0;
    let q2 = (a.c[2] - q0 * y2 - q1 * y1) / y0;
    let q3 = (a.c[3] - q0 * y3 - q1 * y2 - q2 * y1) / y0;
    along(q0, q1, q2, q3)
}

// The root of a, from the root r0 of its first coefficient.
pub fn sqrt_4_from(r0: f64, a: Jet) -> Jet
    requires { r0 ≡ root (at a.c 0) }
    ensures { result.c ≡ cut 4 (root_of a.c) }
{
    let d = 2.0 * r0;
    let r1 = a.c[1] / d;
    let r2 = (a.c[2] - r1 * r1) / d;
    let r3 = (a.c[3] - r1 * r2 - r2 * r1) / d;
    along(r0, r1, r2, r3)
}

pub fn sqrt_4(a: Jet) -> Jet
    ensures { result.c ≡ cut 4 (root_of a.c) }
{
    sqrt_4_from(float::sqrt(a.c[0]), a)
}

// The weights of positions 1, 2 and 3 are 1, 2 and 3.
pub fn ln_4(a: Jet) -> Jet
    ensures { result.c ≡ cut 4 (logarithm_of a.c) }
{
    let x0 = a.c[0];
    let x1 = a.c[1];
    let x2 = a.c[2];
    let l0 = float::ln(x0);
    let l1 = 1.0 * x1 / (1.0 * x0);
    let l2 = (2.0 * x2 - 1.0 * l1 * x1) / (2.0 * x0);
    let l3 = (3.0 * a.c[3] - 1.0 * l1 * x2 - 2.0 * l2 * x1) / (3.0 * x0);
    along(l0, l1, l2, l3)
}
