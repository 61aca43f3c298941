// Kind 6 one evaluation at a time.
ghost use Rattle.std.specs.Prelude.{◌≡◌};
ghost use Rattle.solver.specs.Evaluated.{evaluated};
ghost use Rattle.solver_critical_step.specs.SpinodalsStep.{stability_start, stability_next, spinodals_at, liquid_on, vapor_on, critical_on, spinodals_begin, spinodals_next};

use crate::critical::{critical_at, critical_begin, critical_next};
use crate::types::{CriticalSpot, SpinodalsSpot, StabilitySpot};
use eos::Blend;
use solver::{DensityInitialization, Progress, Refusal};
use std::ops::ControlFlow;

#[tactic(auto, unfolding(crate::specs::SpinodalsStep::stability_start))]
fn stability_start(rho: f64) -> StabilitySpot
    ensures { result ≡ stability_start rho }
{
    StabilitySpot {
        rounds: 49,
        at: rho,
    }
}

// the one evaluation of calculate_spinodal at a spot, and where it leads
#[tactic(auto, unfolding(crate::specs::SpinodalsStep::stability_next, solver::specs::Evaluated::evaluated))]
fn stability_next(
    blend: Blend,
    maxdensity: f64,
    t: f64,
    spot: StabilitySpot,
) -> Progress<StabilitySpot>
    ensures { result ≡ stability_next maxdensity t (evaluated blend) spot }
{
    let rho = spot.at;
    let y = evaluations::stability_condition(blend, t, rho);
    solver::onward(
        spot.rounds,
        Refusal::Supercritical,
        solver_critical::stability_round(maxdensity, rho, y),
    )
}

// where the liquid's spinodal stands, or the end
#[tactic(auto, unfolding(crate::specs::SpinodalsStep::liquid_on))]
fn liquid_on(vapor: f64, place: Progress<StabilitySpot>) -> Progress<SpinodalsSpot>
    ensures { result ≡ liquid_on vapor place }
{
    match place {
        ControlFlow::Break(Ok(liquid)) => {
            ControlFlow::Break(solver_critical::both_answer(vapor, liquid.first))
        }
        ControlFlow::Break(Err(refusal)) => ControlFlow::Break(Err(refusal)),
        ControlFlow::Continue(at) => ControlFlow::Continue(SpinodalsSpot::LiquidSpinodal {
            vapor,
            at,
        }),
    }
}

// where the vapour's spinodal stands, or the liquid's begins
#[tactic(auto, unfolding(crate::specs::SpinodalsStep::vapor_on))]
fn vapor_on(critical: f64, place: Progress<StabilitySpot>) -> Progress<SpinodalsSpot>
    ensures { result ≡ vapor_on critical place }
{
    match place {
        ControlFlow::Break(Ok(found)) => {
            let vapor = found.first;
            let at = stability_start(solver_critical::liquid_start(critical, vapor));
            ControlFlow::Continue(SpinodalsSpot::LiquidSpinodal { vapor, at })
        }
        ControlFlow::Break(Err(refusal)) => ControlFlow::Break(Err(refusal)),
        ControlFlow::Continue(at) => ControlFlow::Continue(SpinodalsSpot::VaporSpinodal {
            critical,
            at,
        }),
    }
}

// where the critical point's search stands, or the vapour's spinodal begins
#[tactic(auto, unfolding(crate::specs::SpinodalsStep::critical_on))]
fn critical_on(maxdensity: f64, place: Progress<CriticalSpot>) -> Progress<SpinodalsSpot>
    ensures { result ≡ critical_on maxdensity place }
{
    match place {
        ControlFlow::Break(Ok(found)) => {
            let start = solver_critical::spinodal_start(maxdensity, DensityInitialization::Vapor);
            let at = stability_start(start);
            ControlFlow::Continue(SpinodalsSpot::VaporSpinodal {
                critical: found.second,
                at,
            })
        }
        ControlFlow::Break(Err(refusal)) => ControlFlow::Break(Err(refusal)),
        ControlFlow::Continue(at) => ControlFlow::Continue(SpinodalsSpot::CriticalSearch(at)),
    }
}

// the one evaluation at a spot, and where it leads
#[tactic(auto, unfolding(crate::specs::SpinodalsStep::spinodals_next))]
pub fn spinodals_next(
    blend: Blend,
    maxdensity: f64,
    t: f64,
    spot: SpinodalsSpot,
) -> Progress<SpinodalsSpot>
    ensures { result ≡ spinodals_next maxdensity t (evaluated blend) spot }
{
    match spot {
        SpinodalsSpot::CriticalSearch(at) => {
            let start = solver_critical::start_density(maxdensity, None);
            critical_on(maxdensity, critical_next(blend, maxdensity, start, at))
        }
        SpinodalsSpot::VaporSpinodal { critical, at } => {
            vapor_on(critical, stability_next(blend, maxdensity, t, at))
        }
        SpinodalsSpot::LiquidSpinodal { vapor, at } => {
            liquid_on(vapor, stability_next(blend, maxdensity, t, at))
        }
    }
}

// the density of a spot's evaluation
#[tactic(auto, unfolding(crate::specs::SpinodalsStep::spinodals_at))]
pub fn spinodals_at(spot: SpinodalsSpot) -> f64
    ensures { result ≡ spinodals_at spot }
{
    match spot {
        SpinodalsSpot::CriticalSearch(at) => critical_at(at),
        SpinodalsSpot::VaporSpinodal { at, .. } | SpinodalsSpot::LiquidSpinodal { at, .. } => at.at,
    }
}

// where a search begins
#[tactic(auto, unfolding(crate::specs::SpinodalsStep::spinodals_begin))]
pub fn spinodals_begin(maxdensity: f64) -> Progress<SpinodalsSpot>
    ensures { result ≡ spinodals_begin maxdensity }
{
    let start = solver_critical::start_density(maxdensity, None);
    critical_on(maxdensity, critical_begin(start, None))
}
