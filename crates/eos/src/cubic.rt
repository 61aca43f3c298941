// cubic.rs: the parameters of a blend and its maximum density. helmholtz.rt has its energy on jets.
ghost use Rattle.std.specs.Prelude.{◌≡◌, ◌≤◌, ◌<◌};
ghost use Rattle.float.specs.Ops.{◌⊗◌};
ghost use Rattle.eos.specs.Indices.{total};
ghost use Rattle.eos.specs.Cubic.{nth, blend_by, component_of, components_of, max_density};

use crate::types::{Blend, Component};

const KB_A3: f64 = 13806490.0;

// `PengRobinson::new`, for one component.
pub fn component(tc: f64, pc: f64, acentric_factor: f64) -> Component
    ensures { result ≡ component_of tc pc acentric_factor }
{
    Component {
        tc,
        a: 0.45724 * KB_A3 * (tc * tc / pc),
        b: 0.07780 * KB_A3 * (tc / pc),
        kappa: 0.37464 + (1.54226 - 0.26992 * acentric_factor) * acentric_factor,
    }
}

// The number of components, from 1 to 8.
pub fn components(blend: Blend) -> usize
    ensures { (result ≡ components_of blend) × (1 ≤ result) × (result ≤ 8) }
{
    blend.n.clamp(1, 8)
}

// A blend from its rows.
pub fn blend(
    n: usize,
    tc: &[f64; 8],
    a: &[f64; 8],
    b: &[f64; 8],
    kappa: &[f64; 8],
    k_ij: &[f64; 64],
    x: &[f64; 8],
) -> Blend
    ensures { result ≡ blend_by n tc.now a.now b.now kappa.now k_ij.now x.now }
{
    Blend {
        n,
        tc: *tc,
        a: *a,
        b: *b,
        kappa: *kappa,
        k_ij: *k_ij,
        x: *x,
    }
}

// The sum of x(i) * y(i), from the first term.
fn dot(n: usize, x: &[f64; 8], y: &[f64; 8]) -> f64
    requires { (1 ≤ n) × (n ≤ 8) }
    ensures { result ≡ total n (λ i. nth x.now i ⊗ nth y.now i) }
{
    let mut s = x[0] * y[0];
    for i in 1..n {
        s += x[i] * y[i];
    }
    s
}

pub fn compute_max_density(blend: Blend) -> f64
    ensures { result ≡ max_density blend }
{
    let n = components(blend);
    let x = blend.x;
    let b = blend.b;
    0.9 / dot(n, &x, &b)
}
