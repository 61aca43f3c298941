// What the components of a blend make together along the density, in rows of eight jets: any number of them, of the blend's fractions. Four coefficients are enough there.
ghost use Rattle.std.specs.Prelude.{◌≡◌, ℕ, ◌+◌, ◌*◌, ◌≤◌, ◌<◌};
ghost use Rattle.float.specs.Ops.{◌⊗◌};
ghost use Rattle.float.specs.Root.{root as root_of};
ghost use Rattle.jet.specs.Coefficients.{at, Upto, number_of, root_of as jet_root_of};
ghost use Rattle.jet.specs.Ops.{◌⊠◌, ◌⧄◌};
ghost use Rattle.eos.specs.Indices.{jet_total};
ghost use Rattle.eos.specs.Jets.{jet_at, place_of};
ghost use Rattle.eos.specs.Cubic.{nth, ak_of, ak_mix, b_mix};
ghost use Rattle.eos.specs.Helmholtz.{partial_density, Mixes};

use crate::helmholtz::{ak, mix_term};
use crate::types::{Blend, Mixture};
use jet::{Jet, number};
use jet_gradient::{add, div, mul, sqrt_from};

// A row of eight jets whose first n are f's.
fn row<F: Fn(usize) -> Jet>(n: usize, f: F) -> [Jet; 8]
    requires size { n ≤ 8 }
    requires callable { (i : ℕ) → i < n → F.pre f i }
    ensures { (i : ℕ) → i < n → (r : Jet) × F.post f i r × (jet_at result i ≡ r.c) }
{
    let mut out = [number(0.0); 8];
    for i in 0..n {
        out[i] = f(i);
    }
    out
}

// The sum of the first n of a, from the first term.
fn sum(n: usize, a: [Jet; 8]) -> Jet
    requires { (1 ≤ n) × (n ≤ 8) }
    ensures { Upto 4 result.c (jet_total n (jet_at a)) }
{
    let mut s = a[0];
    for i in 1..n {
        s = add::<4>(s, a[i]);
    }
    s
}

// Where the root of the components i and j stands: in the row of the larger index.
fn root_place(i: usize, j: usize) -> usize
    requires { (i < 8) × (j < 8) }
    ensures { (result ≡ place_of i j) × (result < 64) }
{
    if j <= i { 8 * i + j } else { 8 * j + i }
}

// The roots of the products of the first coefficients of two of the first n of a, each unordered pair once.
fn roots(n: usize, a: [Jet; 8]) -> [f64; 64]
    requires { n ≤ 8 }
    ensures { (i j : ℕ) → i < n → j < n → nth result (place_of i j) ≡ root_of (at (jet_at a i) 0 ⊗ at (jet_at a j) 0) }
{
    let mut out = [0.0; 64];
    for i in 0..n {
        for j in 0..i + 1 {
            out[8 * i + j] = float::sqrt(a[i].c[0] * a[j].c[0]);
        }
    }
    out
}

// ak of the first n components.
fn aks(n: usize, blend: Blend, t: Jet) -> [Jet; 8]
    requires { n ≤ 8 }
    ensures { (i : ℕ) → i < n → Upto 4 (jet_at result i) (ak_of t.c (nth blend.tc i) (nth blend.kappa i) (nth blend.a i)) }
{
    let tc = blend.tc;
    let kappa = blend.kappa;
    let a = blend.a;
    row(
        n,
        |i|
            requires { i < 8 }
            ensures { Upto 4 result.c (ak_of t.c (nth tc i) (nth kappa i) (nth a i)) }
        { ak::<4>(t, tc[i], kappa[i], a[i]) },
    )
}

// The root of ak_i * ak_j; root is its coefficient at position 0.
fn ak_root(root: f64, ai: Jet, aj: Jet) -> Jet
    requires { root ≡ root_of (at ai.c 0 ⊗ at aj.c 0) }
    ensures { Upto 4 result.c (jet_root_of (ai.c ⊠ aj.c)) }
{
    sqrt_from::<4>(root, mul::<4>(ai, aj))
}

// ak_mix, from zero, over j within i.
fn ak_mix(n: usize, ak: [Jet; 8], x: [Jet; 8], k: &[f64; 64]) -> Jet
    requires { n ≤ 8 }
    ensures { Upto 4 result.c (ak_mix n (jet_at ak) (jet_at x) (λ i j. nth k.now (8 * i + j))) }
{
    let root = roots(n, ak);
    let mut m = number(0.0);
    for i in 0..n {
        for j in 0..n {
            let r = ak_root(root[root_place(i, j)], ak[i], ak[j]);
            m = add::<4>(m, mix_term::<4>(r, x[i], x[j], k[8 * i + j]));
        }
    }
    m
}

// The sum of the fractions times b, from the first term.
fn b_mix(n: usize, x: [Jet; 8], b: &[f64; 8]) -> Jet
    requires { (1 ≤ n) × (n ≤ 8) }
    ensures { Upto 4 result.c (b_mix n (jet_at x) (nth b.now)) }
{
    let mut m = mul::<4>(x[0], number(b[0]));
    for i in 1..n {
        m = add::<4>(m, mul::<4>(x[i], number(b[i])));
    }
    m
}

// The partial densities of the first n mole numbers, plain numbers here, in the volume v.
fn densities(n: usize, moles: &[f64; 8], v: Jet) -> [Jet; 8]
    requires { n ≤ 8 }
    ensures { (i : ℕ) → i < n → Upto 4 (jet_at result i) (number_of (nth moles.now i) ⧄ v.c) }
{
    row(n, |i| div::<4>(number(moles[i]), v))
}

// The first n of a, each over d.
fn over(n: usize, a: [Jet; 8], d: Jet) -> [Jet; 8]
    requires { n ≤ 8 }
    ensures { (i : ℕ) → i < n → Upto 4 (jet_at result i) (jet_at a i ⧄ d.c) }
{
    row(n, |i| div::<4>(a[i], d))
}

// The first n components, of the blend's fractions.
pub fn many(n: usize, blend: Blend, t: Jet, v: Jet) -> Mixture
    requires { (1 ≤ n) × (n ≤ 8) }
    ensures { Mixes 4 blend n t.c (partial_density (λ i. number_of (nth blend.x i)) v.c) result }
{
    let k = blend.k_ij;
    let b = blend.b;
    let moles = blend.x;
    let rho = densities(n, &moles, v);
    let density = sum(n, rho);
    let x = over(n, rho, density);
    let ak = aks(n, blend, t);
    Mixture {
        density,
        a: ak_mix(n, ak, x, &k),
        b: b_mix(n, x, &b),
    }
}
