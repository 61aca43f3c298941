// calculate_spinodal and spinodal of critical_point.rs, for one component.
ghost use Rattle.std.specs.Prelude.{◌≡◌};
ghost use Rattle.float.specs.Sign.{finite_of};
ghost use Rattle.eos.specs.Cubic.{max_density};
ghost use Rattle.solver.specs.Search.{run};
ghost use Rattle.solver.specs.Evaluated.{evaluated};
ghost use Rattle.solver_critical.specs.Spinodal.{spinodal_answer, both_answer, spinodal_start, liquid_start, reduced_delta, stability_step, calculate_spinodal, after_vapor, after_critical, spinodal as spinodal_tree};
ghost use Rattle.solver_critical.specs.Rounds.{stability_round};

use crate::critical::{all_finite, critical_search, floor};
use eos::Blend;
use evaluations::Stability;
use solver::{Answer, DensityInitialization, Progress, Ran, Refusal, Values};
use std::ops::ControlFlow;

// one spinodal's density as an answer
fn spinodal_answer(rho: f64) -> Answer
    ensures { result ≡ spinodal_answer rho }
{
    let found = Values {
        first: rho,
        second: 0.0,
        third: 0.0,
    };
    Ok(found)
}

// both spinodals' densities as an answer
pub fn both_answer(vapor: f64, liquid: f64) -> Answer
    ensures { result ≡ both_answer vapor liquid }
{
    let found = Values {
        first: vapor,
        second: liquid,
        third: 0.0,
    };
    Ok(found)
}

pub fn spinodal_start(maxdensity: f64, initial: DensityInitialization) -> f64
    ensures { result ≡ spinodal_start maxdensity initial }
{
    match initial {
        DensityInitialization::Vapor => 1e-5 * maxdensity,
        DensityInitialization::Liquid => maxdensity,
        DensityInitialization::InitialDensity(rho) => rho,
    }
}

// where the liquid's search starts
pub fn liquid_start(critical: f64, vapor: f64) -> f64
    ensures { result ≡ liquid_start critical vapor }
{
    2.0 * critical - vapor
}

// reduce step if necessary
fn reduce_delta(most: f64, delta: f64) -> f64
    ensures { result ≡ reduced_delta most delta }
{
    let size = float::abs(delta);
    if size > most {
        return delta * (most / size);
    }
    delta
}

// the Newton step from rho, with its cap and floor
fn stability_step(maxdensity: f64, rho: f64, y: Stability) -> f64
    ensures { result ≡ stability_step maxdensity rho y }
{
    let delta = reduce_delta(0.03 * maxdensity, y.f / y.df);
    floor(maxdensity, rho - delta)
}

// a round at rho, with its tests for 27
pub fn stability_round(maxdensity: f64, rho: f64, y: Stability) -> Progress<f64>
    ensures { result ≡ stability_round maxdensity rho y }
{
    if !all_finite(&[y.f, y.df]) {
        return ControlFlow::Break(Err(Refusal::NotFinite));
    }
    let next = stability_step(maxdensity, rho, y);
    if !float::is_finite(next) {
        return ControlFlow::Break(Err(Refusal::NotFinite));
    }
    if float::abs(y.f) < 1e-8 {
        return ControlFlow::Break(spinodal_answer(next));
    }
    ControlFlow::Continue(next)
}

fn calculate_spinodal(
    blend: Blend,
    maxdensity: f64,
    temperature: f64,
    initial: DensityInitialization,
) -> Ran
    ensures { result ≡ run finite_of (evaluated blend) 0 (calculate_spinodal maxdensity temperature initial) }
{
    let start = spinodal_start(maxdensity, initial);
    solver::rounds(50, Refusal::Supercritical, start, |rho| {
        let y = evaluations::stability_condition(blend, temperature, rho);
        stability_round(maxdensity, rho, y)
    })
}

// the liquid's spinodal, after the vapour's
fn after_vapor(blend: Blend, maxdensity: f64, temperature: f64, critical: f64, vapor: Values) -> Ran
    ensures { result ≡ run finite_of (evaluated blend) 0 (after_vapor maxdensity temperature critical vapor) }
{
    let rho = liquid_start(critical, vapor.first);
    let liquid = calculate_spinodal(
        blend,
        maxdensity,
        temperature,
        DensityInitialization::InitialDensity(rho),
    );
    Ran {
        answer: liquid
            .answer
            .and_then(|found| both_answer(vapor.first, found.first)),
        evaluations: liquid.evaluations,
    }
}

// both spinodals, after the critical point
fn after_critical(blend: Blend, maxdensity: f64, temperature: f64, critical: Values) -> Ran
    ensures { result ≡ run finite_of (evaluated blend) 0 (after_critical maxdensity temperature critical) }
{
    calculate_spinodal(blend, maxdensity, temperature, DensityInitialization::Vapor).and_then(
        |vapor| after_vapor(blend, maxdensity, temperature, critical.second, vapor),
    )
}

fn spinodal_search(blend: Blend, maxdensity: f64, temperature: f64) -> Ran
    ensures { result ≡ run finite_of (evaluated blend) 0 (spinodal_tree maxdensity temperature) }
{
    critical_search(blend, maxdensity, None, None).and_then(|critical| after_critical(
        blend,
        maxdensity,
        temperature,
        critical,
    ))
}

// Kind 6. Hands out the vapour's and the liquid's density.
pub fn spinodal(blend: Blend, temperature: f64) -> Ran
    ensures { result ≡ run finite_of (evaluated blend) 0 (spinodal_tree (max_density blend) temperature) }
{
    spinodal_search(blend, eos::compute_max_density(blend), temperature)
}
