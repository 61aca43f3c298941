// The layers below a request that bench/ measures, under C's names and with the contracts of what they call. Users link `gateway`.
// The names and parameters are bench/'s C interface, so a blend stays seven parameters in each eos_* function.
// A jet's result is taken apart before it is stored: the borrow checker refuses `*r = f(..).c`, also from a local.
// A row stands where it is stored: a function for each would be no shorter.
#![tactic(auto)]

ghost use Rattle.std.specs.Prelude.{◌≡◌};
ghost use Rattle.float.specs.Root.{root};
ghost use Rattle.float.specs.Ln.{ln_of};
ghost use Rattle.jet.specs.Coefficients.{sum_of, product_of, quotient_of, root_of, logarithm_of, cut};
ghost use Rattle.evaluations.specs.Residual.{p_dpdrho, p_dpdrho_d2pdrho2, chemical_potential};
ghost use Rattle.evaluations.specs.Critical.{criticality_conditions, stability_condition};
ghost use Rattle.evaluations.specs.CriticalBinary.{criticality_conditions_t, criticality_conditions_p};
ghost use Rattle.eos.specs.Cubic.{blend_by};
ghost use Rattle.exports.specs.Rows.{pressure_row, criticality_row, pressure_criticality_row, stability_row};

use evaluations::PressureCriticality;
use jet::Jet;

#[unsafe(no_mangle)]
pub extern "C" fn float_sqrt(x: f64) -> f64
    ensures { result ≡ root x }
{
    float::sqrt(x)
}

#[unsafe(no_mangle)]
pub extern "C" fn float_ln(x: f64) -> f64
    ensures { result ≡ ln_of x }
{
    float::ln(x)
}

#[unsafe(no_mangle)]
pub extern "C" fn jet_add(a: &[f64; 32], b: &[f64; 32], r: &mut [f64; 32])
    ensures { r.new ≡ sum_of a.now b.now }
{
    let Jet { c } = jet::add(Jet { c: *a }, Jet { c: *b });
    *r = c;
}

#[unsafe(no_mangle)]
pub extern "C" fn jet_mul(a: &[f64; 32], b: &[f64; 32], r: &mut [f64; 32])
    ensures { r.new ≡ product_of a.now b.now }
{
    let Jet { c } = jet::mul(Jet { c: *a }, Jet { c: *b });
    *r = c;
}

#[unsafe(no_mangle)]
pub extern "C" fn jet_div(a: &[f64; 32], b: &[f64; 32], r: &mut [f64; 32])
    ensures { r.new ≡ quotient_of a.now b.now }
{
    let Jet { c } = jet::div(Jet { c: *a }, Jet { c: *b });
    *r = c;
}

#[unsafe(no_mangle)]
pub extern "C" fn jet_sqrt(a: &[f64; 32], r: &mut [f64; 32])
    ensures { r.new ≡ root_of a.now }
{
    let Jet { c } = jet::sqrt(Jet { c: *a });
    *r = c;
}

#[unsafe(no_mangle)]
pub extern "C" fn jet_ln(a: &[f64; 32], r: &mut [f64; 32])
    ensures { r.new ≡ logarithm_of a.now }
{
    let Jet { c } = jet::ln(Jet { c: *a });
    *r = c;
}

#[unsafe(no_mangle)]
pub extern "C" fn jet_mul_to(n: usize, a: &[f64; 32], b: &[f64; 32], r: &mut [f64; 32])
    ensures { r.new ≡ cut n (product_of a.now b.now) }
{
    let Jet { c } = jet::mul_to(n, Jet { c: *a }, Jet { c: *b });
    *r = c;
}

#[unsafe(no_mangle)]
pub extern "C" fn jet_div_to(n: usize, a: &[f64; 32], b: &[f64; 32], r: &mut [f64; 32])
    ensures { r.new ≡ cut n (quotient_of a.now b.now) }
{
    let Jet { c } = jet::div_to(n, Jet { c: *a }, Jet { c: *b });
    *r = c;
}

#[unsafe(no_mangle)]
pub extern "C" fn jet_sqrt_to(n: usize, a: &[f64; 32], r: &mut [f64; 32])
    ensures { r.new ≡ cut n (root_of a.now) }
{
    let Jet { c } = jet::sqrt_to(n, Jet { c: *a });
    *r = c;
}

#[unsafe(no_mangle)]
pub extern "C" fn jet_ln_to(n: usize, a: &[f64; 32], r: &mut [f64; 32])
    ensures { r.new ≡ cut n (logarithm_of a.now) }
{
    let Jet { c } = jet::ln_to(n, Jet { c: *a });
    *r = c;
}

#[unsafe(no_mangle)]
pub extern "C" fn eos_p_dpdrho(
    n: usize,
    tc: &[f64; 8],
    a: &[f64; 8],
    b: &[f64; 8],
    kappa: &[f64; 8],
    k_ij: &[f64; 64],
    x: &[f64; 8],
    t: f64,
    rho: f64,
    r: &mut [f64; 3],
)
    ensures { r.new ≡ pressure_row (p_dpdrho (blend_by n tc.now a.now b.now kappa.now k_ij.now x.now) t rho) }
{
    let y = evaluations::p_dpdrho(eos::blend(n, tc, a, b, kappa, k_ij, x), t, rho);
    *r = [y.p, y.dp_drho, y.d2p_drho2];
}

#[unsafe(no_mangle)]
pub extern "C" fn eos_p_dpdrho_d2pdrho2(
    n: usize,
    tc: &[f64; 8],
    a: &[f64; 8],
    b: &[f64; 8],
    kappa: &[f64; 8],
    k_ij: &[f64; 64],
    x: &[f64; 8],
    t: f64,
    rho: f64,
    r: &mut [f64; 3],
)
    ensures { r.new ≡ pressure_row (p_dpdrho_d2pdrho2 (blend_by n tc.now a.now b.now kappa.now k_ij.now x.now) t rho) }
{
    let y = evaluations::p_dpdrho_d2pdrho2(eos::blend(n, tc, a, b, kappa, k_ij, x), t, rho);
    *r = [y.p, y.dp_drho, y.d2p_drho2];
}

#[unsafe(no_mangle)]
pub extern "C" fn eos_chemical_potential(
    n: usize,
    tc: &[f64; 8],
    a: &[f64; 8],
    b: &[f64; 8],
    kappa: &[f64; 8],
    k_ij: &[f64; 64],
    x: &[f64; 8],
    t: f64,
    rho: f64,
) -> f64
    ensures { result ≡ chemical_potential (blend_by n tc.now a.now b.now kappa.now k_ij.now x.now) t rho }
{
    evaluations::chemical_potential(eos::blend(n, tc, a, b, kappa, k_ij, x), t, rho)
}

#[unsafe(no_mangle)]
pub extern "C" fn eos_criticality_conditions(
    n: usize,
    tc: &[f64; 8],
    a: &[f64; 8],
    b: &[f64; 8],
    kappa: &[f64; 8],
    k_ij: &[f64; 64],
    x: &[f64; 8],
    t: f64,
    rho: f64,
    r: &mut [f64; 6],
)
    ensures { r.new ≡ criticality_row (criticality_conditions (blend_by n tc.now a.now b.now kappa.now k_ij.now x.now) t rho) }
{
    let y = evaluations::criticality_conditions(eos::blend(n, tc, a, b, kappa, k_ij, x), t, rho);
    *r = [y.l, y.c2, y.dl_d0, y.dl_d1, y.dc2_d0, y.dc2_d1];
}

#[unsafe(no_mangle)]
pub extern "C" fn eos_criticality_conditions_t(
    n: usize,
    tc: &[f64; 8],
    a: &[f64; 8],
    b: &[f64; 8],
    kappa: &[f64; 8],
    k_ij: &[f64; 64],
    x: &[f64; 8],
    t: f64,
    rho0: f64,
    rho1: f64,
    r: &mut [f64; 6],
)
    ensures { r.new ≡ criticality_row (criticality_conditions_t (blend_by n tc.now a.now b.now kappa.now k_ij.now x.now) t rho0 rho1) }
{
    let y = evaluations::criticality_conditions_t(
        eos::blend(n, tc, a, b, kappa, k_ij, x),
        t,
        rho0,
        rho1,
    );
    *r = [y.l, y.c2, y.dl_d0, y.dl_d1, y.dc2_d0, y.dc2_d1];
}

#[unsafe(no_mangle)]
pub extern "C" fn eos_criticality_conditions_p(
    n: usize,
    tc: &[f64; 8],
    a: &[f64; 8],
    b: &[f64; 8],
    kappa: &[f64; 8],
    k_ij: &[f64; 64],
    x: &[f64; 8],
    p: f64,
    t: f64,
    rho0: f64,
    rho1: f64,
    r: &mut [f64; 12],
)
    ensures { r.new ≡ pressure_criticality_row (criticality_conditions_p (blend_by n tc.now a.now b.now kappa.now k_ij.now x.now) p t rho0 rho1) }
{
    let PressureCriticality { l, c2, p: q } = evaluations::criticality_conditions_p(
        eos::blend(n, tc, a, b, kappa, k_ij, x),
        p,
        t,
        rho0,
        rho1,
    );
    *r = [
        l.value, c2.value, q.value, l.d0, l.d1, l.d2, c2.d0, c2.d1, c2.d2, q.d0, q.d1, q.d2,
    ];
}

#[unsafe(no_mangle)]
pub extern "C" fn eos_stability_condition(
    n: usize,
    tc: &[f64; 8],
    a: &[f64; 8],
    b: &[f64; 8],
    kappa: &[f64; 8],
    k_ij: &[f64; 64],
    x: &[f64; 8],
    t: f64,
    rho: f64,
    r: &mut [f64; 2],
)
    ensures { r.new ≡ stability_row (stability_condition (blend_by n tc.now a.now b.now kappa.now k_ij.now x.now) t rho) }
{
    let y = evaluations::stability_condition(eos::blend(n, tc, a, b, kappa, k_ij, x), t, rho);
    *r = [y.f, y.df];
}
