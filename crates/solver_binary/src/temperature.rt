// critical_point_binary_t of critical_point.rs: two partial densities at a set temperature.
ghost use Rattle.std.specs.Prelude.{◌≡◌};
ghost use Rattle.float.specs.Sign.{finite_of};
ghost use Rattle.eos.specs.Cubic.{nth, max_density};
ghost use Rattle.solver.specs.Search.{run};
ghost use Rattle.solver.specs.Evaluated.{evaluated};
ghost use Rattle.solver_binary.specs.CriticalPointBinary.{start_densities, answer_t, reduced_t, step_t, search_t, critical_point_binary_t};
ghost use Rattle.solver_binary.specs.Rounds.{stepped_t, round_t};

use crate::types::Densities;
use eos::Blend;
use evaluations::Criticality;
use solver::{Answer, Progress, Ran, Refusal, Values};
use std::ops::ControlFlow;

// the partial densities that a search starts from, z0 and z1 being the fractions
pub fn start_densities(maxdensity: f64, z0: f64, z1: f64, density: Option<f64>) -> Densities
    ensures { result ≡ start_densities maxdensity z0 z1 density }
{
    let rho = solver_critical::start_density(maxdensity, density);
    Densities {
        rho0: z0 * rho,
        rho1: z1 * rho,
    }
}

// the partial densities as an answer
fn answer_t(p: Densities) -> Answer
    ensures { result ≡ answer_t p }
{
    let found = Values {
        first: p.rho0,
        second: p.rho1,
        third: 0.0,
    };
    Ok(found)
}

// reduce step if necessary
fn reduce_t(maxdensity: f64, delta: [f64; 2]) -> [f64; 2]
    ensures { result ≡ reduced_t maxdensity delta }
{
    let most = 0.03 * maxdensity;
    let mut step = delta;
    solver_critical::limit(most, float::abs(step[0]), &mut step);
    solver_critical::limit(most, float::abs(step[1]), &mut step);
    step
}

// the Newton step from p, with its limits and floors
fn step_t(maxdensity: f64, p: Densities, delta: [f64; 2]) -> Densities
    ensures { result ≡ step_t maxdensity p delta }
{
    let [rho0, rho1] = reduce_t(maxdensity, delta);
    Densities {
        rho0: solver_critical::floor(maxdensity, p.rho0 - rho0),
        rho1: solver_critical::floor(maxdensity, p.rho1 - rho1),
    }
}

// where a step that leads to p goes on
fn stepped_t(ended: bool, p: Densities) -> Progress<Densities>
    ensures { result ≡ stepped_t ended p }
{
    if !solver_critical::all_finite(&[p.rho0, p.rho1]) {
        return ControlFlow::Break(Err(Refusal::NotFinite));
    }
    if ended {
        return ControlFlow::Break(answer_t(p));
    }
    ControlFlow::Continue(p)
}

// a round at p, with its tests for 27
pub fn round_t(maxdensity: f64, p: Densities, y: Criticality) -> Progress<Densities>
    ensures { result ≡ round_t maxdensity p y }
{
    if !solver_critical::all_finite(&solver_critical::entries(y)) {
        return ControlFlow::Break(Err(Refusal::NotFinite));
    }
    let Ok(delta) = solver_critical::solved(y) else {
        return ControlFlow::Break(Err(Refusal::IterationFailed));
    };
    stepped_t(
        solver_critical::has_converged(y),
        step_t(maxdensity, p, delta),
    )
}

// the rounds from a start
fn search_t(blend: Blend, maxdensity: f64, t: f64, start: Densities) -> Ran
    ensures { result ≡ run finite_of (evaluated blend) 0 (search_t maxdensity t 200 start) }
{
    solver::rounds(200, Refusal::NotConverged, start, |p| {
        let y = evaluations::criticality_conditions_t(blend, t, p.rho0, p.rho1);
        round_t(maxdensity, p, y)
    })
}

// Kind 8. Hands out two partial densities.
pub fn critical_point_binary_t(blend: Blend, temperature: f64, density: Option<f64>) -> Ran
    ensures { result ≡ run finite_of (evaluated blend) 0 (critical_point_binary_t (max_density blend) (nth blend.x 0) (nth blend.x 1) temperature density) }
{
    let maxdensity = eos::compute_max_density(blend);
    let start = start_densities(maxdensity, blend.x[0], blend.x[1], density);
    search_t(blend, maxdensity, temperature, start)
}
