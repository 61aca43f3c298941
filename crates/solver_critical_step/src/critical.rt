// Kinds 5 and 7 one evaluation at a time.
ghost use Rattle.std.specs.Prelude.{◌≡◌, suc};
ghost use Rattle.solver.specs.Evaluated.{evaluated};
ghost use Rattle.solver_critical_step.specs.CriticalStep.{hkm_start, hkm_next, critical_at, given_on, trial_at, trial_on, critical_begin, critical_next};

use crate::types::{CriticalSpot, HkmSpot};
use eos::Blend;
use solver::{Progress, Refusal};
use solver_critical::Point;
use std::ops::ControlFlow;

#[tactic(auto, unfolding(crate::specs::CriticalStep::hkm_start))]
fn hkm_start(t: f64, rho: f64) -> HkmSpot
    ensures { result ≡ hkm_start t rho }
{
    HkmSpot {
        rounds: 49,
        at: Point { t, rho },
    }
}

// the one evaluation of critical_point_hkm at a spot, and where it leads
#[tactic(auto, unfolding(crate::specs::CriticalStep::hkm_next, solver::specs::Evaluated::evaluated))]
fn hkm_next(blend: Blend, maxdensity: f64, spot: HkmSpot) -> Progress<HkmSpot>
    ensures { result ≡ hkm_next maxdensity (evaluated blend) spot }
{
    let p = spot.at;
    let y = evaluations::criticality_conditions(blend, p.t, p.rho);
    solver::onward(
        spot.rounds,
        Refusal::NotConverged,
        solver_critical::critical_round(maxdensity, p, y),
    )
}

#[tactic(auto, unfolding(crate::specs::CriticalStep::given_on))]
fn given_on(place: Progress<HkmSpot>) -> Progress<CriticalSpot>
    ensures { result ≡ given_on place }
{
    ControlFlow::Continue(CriticalSpot::Given(place?))
}

// a trial begins, or there is none
#[tactic(auto, unfolding(crate::specs::CriticalStep::trial_at, solver_critical::specs::CriticalPoint::trial_temperatures))]
fn trial_at(rho: f64, trial: u64) -> Progress<CriticalSpot>
    ensures { result ≡ trial_at rho trial }
{
    if trial < 3 {
        let at = hkm_start(solver_critical::trial_temperature(trial), rho);
        ControlFlow::Continue(CriticalSpot::Trial { trial, at })
    } else {
        ControlFlow::Break(Err(Refusal::NotConverged))
    }
}

// the trial after this one
#[tactic(auto, unfolding(crate::specs::CriticalStep::trial_at, solver_critical::specs::CriticalPoint::trial_temperatures))]
fn next_trial(rho: f64, trial: u64) -> Progress<CriticalSpot>
    ensures { result ≡ trial_at rho (suc trial) }
{
    if trial < 3 {
        trial_at(rho, trial + 1)
    } else {
        ControlFlow::Break(Err(Refusal::NotConverged))
    }
}

// where a trial stands, or what it leads to
#[tactic(auto, unfolding(crate::specs::CriticalStep::trial_on))]
fn trial_on(rho: f64, trial: u64, place: Progress<HkmSpot>) -> Progress<CriticalSpot>
    ensures { result ≡ trial_on rho trial place }
{
    match place {
        ControlFlow::Break(Ok(found)) => ControlFlow::Break(Ok(found)),
        ControlFlow::Break(Err(_)) => next_trial(rho, trial),
        ControlFlow::Continue(at) => ControlFlow::Continue(CriticalSpot::Trial { trial, at }),
    }
}

// The one evaluation at a spot, and where it leads. `start` is the density that each trial starts from.
#[tactic(auto, unfolding(crate::specs::CriticalStep::critical_next))]
pub fn critical_next(
    blend: Blend,
    maxdensity: f64,
    start: f64,
    spot: CriticalSpot,
) -> Progress<CriticalSpot>
    ensures { result ≡ critical_next maxdensity start (evaluated blend) spot }
{
    match spot {
        CriticalSpot::Given(at) => given_on(hkm_next(blend, maxdensity, at)),
        CriticalSpot::Trial { trial, at } => {
            trial_on(start, trial, hkm_next(blend, maxdensity, at))
        }
    }
}

// the density of a spot's evaluation
#[tactic(auto, unfolding(crate::specs::CriticalStep::critical_at))]
pub fn critical_at(spot: CriticalSpot) -> f64
    ensures { result ≡ critical_at spot }
{
    match spot {
        CriticalSpot::Given(at) | CriticalSpot::Trial { at, .. } => at.at.rho,
    }
}

// where a search begins
#[tactic(auto, unfolding(crate::specs::CriticalStep::critical_begin))]
pub fn critical_begin(start: f64, temperature: Option<f64>) -> Progress<CriticalSpot>
    ensures { result ≡ critical_begin start temperature }
{
    match temperature {
        None => trial_at(start, 0),
        Some(t) => ControlFlow::Continue(CriticalSpot::Given(hkm_start(t, start))),
    }
}
