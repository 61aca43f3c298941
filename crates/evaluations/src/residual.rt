// residual.rs: the evaluations along the density.
ghost use Rattle.std.specs.Prelude.{◌≡◌};
ghost use Rattle.jet.specs.Coefficients.{Upto};
ghost use Rattle.evaluations.specs.Residual.{along_volume, pressure_from, slope_from, curvature_from, p_dpdrho, p_dpdrho_d2pdrho2, chemical_potential};

use crate::types::Pressure;
use eos::helmholtz::helmholtz;
use eos::{Blend, components};
use jet::Jet;

// The Helmholtz energy with its derivatives by the molar volume v. Only e0 is marked, so that four positions are enough.
fn along_volume(blend: Blend, t: f64, v: f64) -> Jet
    ensures { Upto 4 result.c (along_volume blend t v) }
{
    let n = components(blend);
    helmholtz(n, blend, jet::number(t), jet::marked(1, v))
}

fn pressure_from(t: f64, rho: f64, a: &[f64; 32]) -> f64
    ensures { result ≡ pressure_from t rho a.now }
{
    -(1.0 * a[1]) + t * rho
}

fn slope_from(t: f64, v: f64, a: &[f64; 32]) -> f64
    ensures { result ≡ slope_from t v a.now }
{
    v * v * (2.0 * a[2]) + t
}

fn curvature_from(v: f64, a: &[f64; 32]) -> f64
    ensures { result ≡ curvature_from v a.now }
{
    -v * v * v * (2.0 * a[2] * 2.0 + v * (6.0 * a[3]))
}

pub fn p_dpdrho_d2pdrho2(blend: Blend, temperature: f64, density: f64) -> Pressure
    ensures { result ≡ p_dpdrho_d2pdrho2 blend temperature density }
{
    let v = 1.0 / density;
    let a = along_volume(blend, temperature, v).c;
    Pressure {
        p: pressure_from(temperature, density, &a),
        dp_drho: slope_from(temperature, v, &a),
        d2p_drho2: curvature_from(v, &a),
    }
}

pub fn p_dpdrho(blend: Blend, temperature: f64, density: f64) -> Pressure
    ensures { result ≡ p_dpdrho blend temperature density }
{
    Pressure {
        d2p_drho2: 0.0,
        ..p_dpdrho_d2pdrho2(blend, temperature, density)
    }
}

// `_chemical_potential` of density_iteration.rs.
pub fn chemical_potential(blend: Blend, temperature: f64, density: f64) -> f64
    ensures { result ≡ chemical_potential blend temperature density }
{
    let v = 1.0 / density;
    let a = along_volume(blend, temperature, v).c;
    a[0] - 1.0 * a[1] * v + temperature * float::ln(density)
}
