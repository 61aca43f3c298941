// critical_point_binary_p of critical_point.rs: a temperature and two partial densities at a set pressure.
ghost use Rattle.std.specs.Prelude.{◌≡◌};
ghost use Rattle.float.specs.Sign.{finite_of};
ghost use Rattle.eos.specs.Cubic.{nth, max_density};
ghost use Rattle.solver.specs.Search.{run};
ghost use Rattle.solver.specs.Evaluated.{evaluated};
ghost use Rattle.solver_binary.specs.CriticalPointBinary.{start_temperature, start_unknowns, answer_p, reduced_p, step_p, row_of, residuals, solved_p as solved_p_of, converged_p, search_p, critical_point_binary_p};
ghost use Rattle.solver_binary.specs.Rounds.{row_finite, finite12, stepped_p, round_p};

use crate::temperature::start_densities;
use crate::types::Unknowns;
use eos::Blend;
use evaluations::{Condition, PressureCriticality};
use linear::ZeroPivot;
use solver::{Answer, Progress, Ran, Refusal, Values};
use std::ops::ControlFlow;

fn start_temperature(temperature: Option<f64>) -> f64
    ensures { result ≡ start_temperature temperature }
{
    temperature.unwrap_or(300.0)
}

// where a search starts, z0 and z1 being the fractions
pub fn start_unknowns(
    maxdensity: f64,
    z0: f64,
    z1: f64,
    temperature: Option<f64>,
    density: Option<f64>,
) -> Unknowns
    ensures { result ≡ start_unknowns maxdensity z0 z1 temperature density }
{
    let rho = start_densities(maxdensity, z0, z1, density);
    Unknowns {
        t: start_temperature(temperature),
        rho0: rho.rho0,
        rho1: rho.rho1,
    }
}

// temperature and partial densities as an answer
fn answer_p(p: Unknowns) -> Answer
    ensures { result ≡ answer_p p }
{
    let found = Values {
        first: p.t,
        second: p.rho0,
        third: p.rho1,
    };
    Ok(found)
}

// reduce step if necessary
fn reduce_p(maxdensity: f64, t: f64, delta: [f64; 3]) -> [f64; 3]
    ensures { result ≡ reduced_p maxdensity t delta }
{
    let most = 0.03 * maxdensity;
    let mut step = delta;
    solver_critical::limit(0.25 * t, float::abs(step[0]), &mut step);
    solver_critical::limit(most, float::abs(step[1]), &mut step);
    solver_critical::limit(most, float::abs(step[2]), &mut step);
    step
}

// the Newton step from p, with its limits and floors
fn step_p(maxdensity: f64, p: Unknowns, delta: [f64; 3]) -> Unknowns
    ensures { result ≡ step_p maxdensity p delta }
{
    let [t, rho0, rho1] = reduce_p(maxdensity, p.t, delta);
    Unknowns {
        t: p.t - t,
        rho0: solver_critical::floor(maxdensity, p.rho0 - rho0),
        rho1: solver_critical::floor(maxdensity, p.rho1 - rho1),
    }
}

// a condition's derivatives by temperature and partial densities
fn row(c: Condition) -> [f64; 3]
    ensures { result ≡ row_of c }
{
    [c.d0, c.d1, c.d2]
}

fn residuals(y: PressureCriticality) -> [f64; 3]
    ensures { result ≡ residuals y }
{
    [y.l.value, y.c2.value, y.p.value]
}

// the derivatives of a condition are finite
fn row_finite(c: Condition) -> bool
    ensures { result ≡ row_finite c }
{
    solver_critical::all_finite(&row(c))
}

// what criticality_conditions_p yields is finite
#[tactic(auto, unfolding(crate::specs::Rounds::finite12))]
fn all_finite(y: PressureCriticality) -> bool
    ensures { result ≡ finite12 y }
{
    solver_critical::all_finite(&residuals(y))
        && row_finite(y.l)
        && row_finite(y.c2)
        && row_finite(y.p)
}

fn has_converged(y: PressureCriticality) -> bool
    ensures { result ≡ converged_p y }
{
    linear::norm(&residuals(y)) < 1e-8
}

fn solved_p(y: PressureCriticality) -> Result<[f64; 3], ZeroPivot>
    ensures { result ≡ solved_p_of y }
{
    linear::solve3([row(y.l), row(y.c2), row(y.p)], residuals(y))
}

// where a step that leads to p goes on
fn stepped_p(ended: bool, p: Unknowns) -> Progress<Unknowns>
    ensures { result ≡ stepped_p ended p }
{
    if !solver_critical::all_finite(&[p.t, p.rho0, p.rho1]) {
        return ControlFlow::Break(Err(Refusal::NotFinite));
    }
    if ended {
        return ControlFlow::Break(answer_p(p));
    }
    ControlFlow::Continue(p)
}

// a round at p, with its tests for 27
pub fn round_p(maxdensity: f64, p: Unknowns, y: PressureCriticality) -> Progress<Unknowns>
    ensures { result ≡ round_p maxdensity p y }
{
    if !all_finite(y) {
        return ControlFlow::Break(Err(Refusal::NotFinite));
    }
    let Ok(delta) = solved_p(y) else {
        return ControlFlow::Break(Err(Refusal::IterationFailed));
    };
    stepped_p(has_converged(y), step_p(maxdensity, p, delta))
}

// the rounds from a start
fn search_p(blend: Blend, maxdensity: f64, pressure: f64, start: Unknowns) -> Ran
    ensures { result ≡ run finite_of (evaluated blend) 0 (search_p maxdensity pressure 200 start) }
{
    solver::rounds(200, Refusal::NotConverged, start, |p| {
        let y = evaluations::criticality_conditions_p(blend, pressure, p.t, p.rho0, p.rho1);
        round_p(maxdensity, p, y)
    })
}

// Kind 9. Hands out the temperature and two partial densities.
pub fn critical_point_binary_p(
    blend: Blend,
    pressure: f64,
    temperature: Option<f64>,
    density: Option<f64>,
) -> Ran
    ensures { result ≡ run finite_of (evaluated blend) 0 (critical_point_binary_p (max_density blend) (nth blend.x 0) (nth blend.x 1) pressure temperature density) }
{
    let maxdensity = eos::compute_max_density(blend);
    let start = start_unknowns(maxdensity, blend.x[0], blend.x[1], temperature, density);
    search_p(blend, maxdensity, pressure, start)
}
