// The residual Helmholtz energy of cubic.rs, residual.rs and `StateHD` on jets, in the coefficients of first order at positions below W: four along the density, twelve and twenty
// in criticality. The definitions of specs/Cubic.antt and specs/Helmholtz.antt say it of all coefficients. Of one component and of two the mole numbers are jets; of any number
// they are the blend's fractions (mixture.rt).
ghost use Rattle.std.specs.Prelude.{◌≡◌, List, ℕ, ◌+◌, ◌*◌, ◌≤◌, Float};
ghost use Rattle.float.specs.Ops.{◌⊖◌, f1};
ghost use Rattle.jet.specs.Coefficients.{Upto, number_of, root_of};
ghost use Rattle.jet.specs.Ops.{◌⊠◌};
ghost use Rattle.eos.specs.Jets.{pair_of};
ghost use Rattle.eos.specs.Cubic.{nth, ak_of, ak_mix, b_mix, repulsion, log_ratio, attraction, contribution};
ghost use Rattle.eos.specs.Helmholtz.{aks_of, AkRoots, partial_density, Mixes, helmholtz as helmholtz_of};

use crate::mixture::many;
use crate::types::{Blend, Mixture, PairRoots};
use jet::{Jet, number};
use jet_gradient::{add, div, ln, mul, sqrt, sub};
use std::f64::consts::SQRT_2;

// ak of a component at the temperature t.
pub(crate) fn ak<const W: usize>(t: Jet, tc: f64, kappa: f64, a: f64) -> Jet
    ensures { Upto W result.c (ak_of t.c tc kappa a) }
{
    let one = number(1.0);
    let q = div::<W>(t, number(tc));
    let d = sub::<W>(one, sqrt::<W>(q));
    let y = add::<W>(mul::<W>(d, number(kappa)), one);
    mul::<W>(mul::<W>(y, y), number(a))
}

// The root of ak_i * ak_j, which a term of ak_mix begins with.
fn ak_root<const W: usize>(ai: Jet, aj: Jet) -> Jet
    ensures { Upto W result.c (root_of (ai.c ⊠ aj.c)) }
{
    sqrt::<W>(mul::<W>(ai, aj))
}

// The term of ak_mix for two components of the fractions xi and xj, with their interaction k and the root of ak_i * ak_j.
pub(crate) fn mix_term<const W: usize>(root: Jet, xi: Jet, xj: Jet, k: f64) -> Jet
    ensures { Upto W result.c (root.c ⊠ (xi.c ⊠ xj.c ⊠ number_of (f1 ⊖ k))) }
{
    let x = mul::<W>(xi, xj);
    mul::<W>(root, mul::<W>(x, number(1.0 - k)))
}

// ak_mix of two components, from zero, over j within i.
fn ak_mix<const W: usize>(root: PairRoots, x1: Jet, x2: Jet, k: &[f64; 64]) -> Jet
    ensures { (ak : ℕ → List Float) → AkRoots W ak root → Upto W result.c (ak_mix 2 ak (pair_of x1.c x2.c) (λ i j. nth k.now (8 * i + j))) }
{
    let m = add::<W>(number(0.0), mix_term::<W>(root.r11, x1, x1, k[0]));
    let m = add::<W>(m, mix_term::<W>(root.r12, x1, x2, k[1]));
    let m = add::<W>(m, mix_term::<W>(root.r21, x2, x1, k[8]));
    add::<W>(m, mix_term::<W>(root.r22, x2, x2, k[9]))
}

// The sum of two fractions times b, from the first term.
fn b_mix<const W: usize>(x1: Jet, x2: Jet, b: &[f64; 8]) -> Jet
    ensures { Upto W result.c (b_mix 2 (pair_of x1.c x2.c) (nth b.now)) }
{
    let m = mul::<W>(x1, number(b[0]));
    add::<W>(m, mul::<W>(x2, number(b[1])))
}

fn repulsive<const W: usize>(v: Jet, b: Jet) -> Jet
    ensures { Upto W result.c (repulsion v.c b.c) }
{
    ln::<W>(div::<W>(v, sub::<W>(v, b)))
}

fn log_ratio<const W: usize>(v: Jet, b: Jet) -> Jet
    ensures { Upto W result.c (log_ratio v.c b.c) }
{
    let upper = add::<W>(v, mul::<W>(b, number(1.0 + SQRT_2)));
    let lower = add::<W>(v, mul::<W>(b, number(1.0 - SQRT_2)));
    ln::<W>(div::<W>(upper, lower))
}

fn attractive<const W: usize>(ak: Jet, b: Jet, t: Jet, v: Jet) -> Jet
    ensures { Upto W result.c (attraction ak.c b.c t.c v.c) }
{
    let b2 = mul::<W>(mul::<W>(b, number(SQRT_2)), number(2.0));
    let q = div::<W>(ak, mul::<W>(b2, t));
    mul::<W>(q, log_ratio::<W>(v, b))
}

// The reduced Helmholtz energy density of `for_each_contribution`.
fn contribute<const W: usize>(density: Jet, ak: Jet, b: Jet, t: Jet) -> Jet
    ensures { Upto W result.c (contribution density.c ak.c b.c t.c) }
{
    let v = div::<W>(number(1.0), density);
    let d = sub::<W>(repulsive::<W>(v, b), attractive::<W>(ak, b, t, v));
    mul::<W>(density, d)
}

// One component of the mole number moles.
fn alone<const W: usize>(blend: Blend, t: Jet, v: Jet, moles: Jet) -> Mixture
    ensures { Mixes W blend 1 t.c (partial_density (λ i. moles.c) v.c) result }
{
    let density = div::<W>(moles, v);
    let x = div::<W>(density, density);
    let one = ak::<W>(t, blend.tc[0], blend.kappa[0], blend.a[0]);
    let term = mix_term::<W>(ak_root::<W>(one, one), x, x, blend.k_ij[0]);
    Mixture {
        density,
        a: add::<W>(number(0.0), term),
        b: mul::<W>(x, number(blend.b[0])),
    }
}

// Two components of the mole numbers n1 and n2.
fn two<const W: usize>(blend: Blend, root: PairRoots, v: Jet, n1: Jet, n2: Jet) -> Mixture
    ensures { (t : List Float) → AkRoots W (aks_of blend t) root → Mixes W blend 2 t (partial_density (pair_of n1.c n2.c) v.c) result }
{
    let k = blend.k_ij;
    let b = blend.b;
    let rho1 = div::<W>(n1, v);
    let rho2 = div::<W>(n2, v);
    let density = add::<W>(rho1, rho2);
    let x1 = div::<W>(rho1, density);
    let x2 = div::<W>(rho2, density);
    Mixture {
        density,
        a: ak_mix::<W>(root, x1, x2, &k),
        b: b_mix::<W>(x1, x2, &b),
    }
}

// The first n components, of the blend's fractions.
fn mix(n: usize, blend: Blend, t: Jet, v: Jet) -> Mixture
    requires { (1 ≤ n) × (n ≤ 8) }
    ensures { Mixes 4 blend n t.c (partial_density (λ i. number_of (nth blend.x i)) v.c) result }
{
    if n == 1 {
        return alone::<4>(blend, t, v, number(blend.x[0]));
    }
    many(n, blend, t, v)
}

// `residual_helmholtz_energy` of what the components make together.
fn energy<const W: usize>(m: Mixture, t: Jet, v: Jet) -> Jet
    ensures { (b : Blend) (n : ℕ) → 1 ≤ n → (moles : ℕ → List Float) → Mixes W b n t.c (partial_density moles v.c) m → Upto W result.c (helmholtz_of b n t.c v.c moles) }
{
    let e = add::<W>(number(0.0), contribute::<W>(m.density, m.a, m.b, t));
    mul::<W>(mul::<W>(e, t), v)
}

// `residual_helmholtz_energy` of the first n components, of the blend's fractions. The mixture's branches meet before the one call of `energy`, so that it is compiled into this
// function.
pub fn helmholtz(n: usize, blend: Blend, t: Jet, v: Jet) -> Jet
    requires { (1 ≤ n) × (n ≤ 8) }
    ensures { Upto 4 result.c (helmholtz_of blend n t.c v.c (λ i. number_of (nth blend.x i))) }
{
    energy::<4>(mix(n, blend, t, v), t, v)
}

// `residual_helmholtz_energy` of one component of the mole number moles.
pub fn helmholtz_of_one<const W: usize>(blend: Blend, t: Jet, v: Jet, moles: Jet) -> Jet
    ensures { Upto W result.c (helmholtz_of blend 1 t.c v.c (λ i. moles.c)) }
{
    energy::<W>(alone::<W>(blend, t, v, moles), t, v)
}

// What the energies of two components at one temperature have in common.
pub fn ak_roots<const W: usize>(blend: Blend, t: Jet) -> PairRoots
    ensures { AkRoots W (aks_of blend t.c) result }
{
    let a1 = ak::<W>(t, blend.tc[0], blend.kappa[0], blend.a[0]);
    let a2 = ak::<W>(t, blend.tc[1], blend.kappa[1], blend.a[1]);
    PairRoots {
        r11: ak_root::<W>(a1, a1),
        r12: ak_root::<W>(a1, a2),
        r21: ak_root::<W>(a2, a1),
        r22: ak_root::<W>(a2, a2),
    }
}

// `residual_helmholtz_energy` of two components of the mole numbers n1 and n2, from their `ak_roots` at the temperature t.
pub fn helmholtz_of_two<const W: usize>(
    blend: Blend,
    root: PairRoots,
    t: Jet,
    v: Jet,
    n1: Jet,
    n2: Jet,
) -> Jet
    requires { AkRoots W (aks_of blend t.c) root }
    ensures { Upto W result.c (helmholtz_of blend 2 t.c v.c (pair_of n1.c n2.c)) }
{
    energy::<W>(two::<W>(blend, root, v, n1, n2), t, v)
}
