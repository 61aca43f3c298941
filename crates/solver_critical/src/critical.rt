// critical_point_hkm and critical_point of critical_point.rs, for one component or two.
ghost use Rattle.std.specs.Prelude.{◌≡◌};
ghost use Rattle.float.specs.Sign.{finite_of};
ghost use Rattle.eos.specs.Cubic.{max_density};
ghost use Rattle.solver.specs.Search.{run};
ghost use Rattle.solver.specs.Evaluated.{evaluated};
ghost use Rattle.solver_critical.specs.CriticalPoint.{critical_answer, floored, limited, reduced_step, newton_step, entries, solved as solved_of, converged, trial_temperatures, trial_temperature, start_density, critical_point_hkm, trials, critical_point};
ghost use Rattle.solver_critical.specs.Rounds.{all_finite as all_finite_of, stepped_round, critical_round};

use crate::types::Point;
use eos::Blend;
use evaluations::Criticality;
use linear::ZeroPivot;
use solver::{Answer, Progress, Ran, Refusal, Values};
use std::ops::ControlFlow;

const TRIAL_TEMPERATURES: [f64; 3] = [300.0, 700.0, 500.0];

// temperature and density as an answer
fn critical_answer(p: Point) -> Answer
    ensures { result ≡ critical_answer p }
{
    let found = Values {
        first: p.t,
        second: p.rho,
        third: 0.0,
    };
    Ok(found)
}

// the floor of a density after a step
pub fn floor(maxdensity: f64, rho: f64) -> f64
    ensures { result ≡ floored maxdensity rho }
{
    float::max(rho, 1e-4 * maxdensity)
}

// a step with an entry of this size above `most` is scaled down as a whole
pub fn limit(most: f64, size: f64, delta: &mut [f64])
    ensures { delta.new ≡ limited most size delta.old }
{
    if size > most {
        let factor = most / size;
        for x in delta.iter_mut() {
            *x *= factor;
        }
    }
}

// reduce step if necessary
fn reduce_step(maxdensity: f64, t: f64, delta: [f64; 2]) -> [f64; 2]
    ensures { result ≡ reduced_step maxdensity t delta }
{
    let mut step = delta;
    limit(0.25 * t, float::abs(step[0]), &mut step);
    limit(0.03 * maxdensity, float::abs(step[1]), &mut step);
    step
}

// the Newton step from p, with its caps and the density's floor
fn newton_step(maxdensity: f64, p: Point, delta: [f64; 2]) -> Point
    ensures { result ≡ newton_step maxdensity p delta }
{
    let [t, rho] = reduce_step(maxdensity, p.t, delta);
    Point {
        t: p.t - t,
        rho: floor(maxdensity, p.rho - rho),
    }
}

pub fn all_finite(xs: &[f64]) -> bool
    ensures { result ≡ all_finite_of xs.now }
{
    xs.iter().all(|x| float::is_finite(*x))
}

// what criticality_conditions yields: the residuals, then their derivatives row by row
pub fn entries(y: Criticality) -> [f64; 6]
    ensures { result ≡ entries y }
{
    [y.l, y.c2, y.dl_d0, y.dl_d1, y.dc2_d0, y.dc2_d1]
}

pub fn has_converged(y: Criticality) -> bool
    ensures { result ≡ converged y }
{
    linear::norm(&[y.l, y.c2]) < 1e-8
}

pub fn solved(y: Criticality) -> Result<[f64; 2], ZeroPivot>
    ensures { result ≡ solved_of y }
{
    let jacobian = [[y.dl_d0, y.dl_d1], [y.dc2_d0, y.dc2_d1]];
    linear::solve(jacobian, [y.l, y.c2])
}

// where a step that leads to p goes on
fn stepped_round(ended: bool, p: Point) -> Progress<Point>
    ensures { result ≡ stepped_round ended p }
{
    if !all_finite(&[p.t, p.rho]) {
        return ControlFlow::Break(Err(Refusal::NotFinite));
    }
    if ended {
        return ControlFlow::Break(critical_answer(p));
    }
    ControlFlow::Continue(p)
}

// a round at p, with its tests for 27
pub fn critical_round(maxdensity: f64, p: Point, y: Criticality) -> Progress<Point>
    ensures { result ≡ critical_round maxdensity p y }
{
    if !all_finite(&entries(y)) {
        return ControlFlow::Break(Err(Refusal::NotFinite));
    }
    let Ok(delta) = solved(y) else {
        return ControlFlow::Break(Err(Refusal::IterationFailed));
    };
    stepped_round(has_converged(y), newton_step(maxdensity, p, delta))
}

pub fn start_density(maxdensity: f64, density: Option<f64>) -> f64
    ensures { result ≡ start_density maxdensity density }
{
    density.unwrap_or(0.3 * maxdensity)
}

// the temperature of a trial, +0 past the last
pub fn trial_temperature(trial: u64) -> f64
    ensures { result ≡ trial_temperature trial }
{
    TRIAL_TEMPERATURES
        .get(trial as usize)
        .copied()
        .unwrap_or(0.0)
}

fn critical_point_hkm(blend: Blend, maxdensity: f64, t: f64, rho: f64) -> Ran
    ensures { result ≡ run finite_of (evaluated blend) 0 (critical_point_hkm maxdensity t rho) }
{
    solver::rounds(50, Refusal::NotConverged, Point { t, rho }, |p| {
        let y = evaluations::criticality_conditions(blend, p.t, p.rho);
        critical_round(maxdensity, p, y)
    })
}

// the trials, each from the density rho: the first that converges ends them
fn by_trials(blend: Blend, maxdensity: f64, rho: f64) -> Ran
    ensures { result ≡ run finite_of (evaluated blend) 0 (trials maxdensity rho trial_temperatures) }
{
    let mut evaluations: u64 = 0;
    for t in &TRIAL_TEMPERATURES {
        let trial = critical_point_hkm(blend, maxdensity, *t, rho);
        evaluations += trial.evaluations;
        if let Ok(found) = trial.answer {
            return Ran {
                answer: Ok(found),
                evaluations,
            };
        }
    }
    Ran {
        answer: Err(Refusal::NotConverged),
        evaluations,
    }
}

pub fn critical_search(
    blend: Blend,
    maxdensity: f64,
    temperature: Option<f64>,
    density: Option<f64>,
) -> Ran
    ensures { result ≡ run finite_of (evaluated blend) 0 (critical_point maxdensity temperature density) }
{
    let rho = start_density(maxdensity, density);
    match temperature {
        None => by_trials(blend, maxdensity, rho),
        Some(t) => critical_point_hkm(blend, maxdensity, t, rho),
    }
}

// Kinds 5 and 7. Hands out temperature and density.
pub fn critical_point(blend: Blend, temperature: Option<f64>, density: Option<f64>) -> Ran
    ensures { result ≡ run finite_of (evaluated blend) 0 (critical_point (max_density blend) temperature density) }
{
    critical_search(blend, eos::compute_max_density(blend), temperature, density)
}
