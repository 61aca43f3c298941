// Kind 2 one evaluation at a time.
ghost use Rattle.std.specs.Prelude.{◌≡◌};
ghost use Rattle.solver.specs.Evaluated.{evaluated};
ghost use Rattle.solver_step.specs.StableStep.{phases_on, vapor_search_on, liquid_potential_on, vapor_potential_on, stable_at, liquid_search_on, stable_next, stable_begin};

use crate::density::{density_at, density_begin, density_next};
use crate::types::{DensitySpot, Phase, StableSpot, Standing};
use eos::Blend;
use solver::{DensityInitialization, Refusal};
use std::ops::ControlFlow;

// both phases searched: the potentials are next, or the end
#[tactic(auto, unfolding(crate::specs::StableStep::phases_on))]
fn phases_on(liquid: Phase, vapor: Phase) -> Standing<StableSpot>
    ensures { result ≡ phases_on liquid vapor }
{
    match (liquid, vapor) {
        (Ok(liquid), Ok(vapor)) => {
            ControlFlow::Continue(StableSpot::LiquidPotential { liquid, vapor })
        }
        (Ok(rho), Err(_)) | (Err(_), Ok(rho)) => ControlFlow::Break(Ok(rho)),
        (Err(_), Err(_)) => ControlFlow::Break(Err(Refusal::BothPhasesFailed)),
    }
}

#[tactic(auto, unfolding(crate::specs::StableStep::vapor_search_on))]
fn vapor_search_on(liquid: Phase, place: Standing<DensitySpot>) -> Standing<StableSpot>
    ensures { result ≡ vapor_search_on liquid place }
{
    match place {
        ControlFlow::Break(vapor) => phases_on(liquid, vapor),
        ControlFlow::Continue(at) => ControlFlow::Continue(StableSpot::VaporSearch { liquid, at }),
    }
}

#[tactic(auto, unfolding(crate::specs::StableStep::liquid_search_on))]
fn liquid_search_on(
    maxdensity: f64,
    t: f64,
    p: f64,
    place: Standing<DensitySpot>,
) -> Standing<StableSpot>
    ensures { result ≡ liquid_search_on maxdensity t p place }
{
    match place {
        ControlFlow::Break(liquid) => {
            if p < maxdensity * t {
                let c = solver_density::conditions(maxdensity, t, p, DensityInitialization::Vapor);
                return vapor_search_on(liquid, density_begin(c));
            }
            ControlFlow::Break(liquid)
        }
        ControlFlow::Continue(at) => ControlFlow::Continue(StableSpot::LiquidSearch(at)),
    }
}

#[tactic(auto, unfolding(crate::specs::StableStep::liquid_potential_on))]
fn liquid_potential_on(liquid: f64, vapor: f64, potential: f64) -> Standing<StableSpot>
    ensures { result ≡ liquid_potential_on liquid vapor potential }
{
    if float::is_finite(potential) {
        ControlFlow::Continue(StableSpot::VaporPotential {
            liquid,
            vapor,
            potential,
        })
    } else {
        ControlFlow::Break(Err(Refusal::NotFinite))
    }
}

#[tactic(auto, unfolding(crate::specs::StableStep::vapor_potential_on))]
fn vapor_potential_on(
    liquid: f64,
    vapor: f64,
    of_liquid: f64,
    of_vapor: f64,
) -> Standing<StableSpot>
    ensures { result ≡ vapor_potential_on liquid vapor of_liquid of_vapor }
{
    ControlFlow::Break(if !float::is_finite(of_vapor) {
        Err(Refusal::NotFinite)
    } else if of_liquid > of_vapor {
        Ok(vapor)
    } else {
        Ok(liquid)
    })
}

// the one evaluation at a spot, and where it leads
// The three numbers stand apart, as solver_state's job of kind 2 has them; a struct of them would be made only to be taken apart.
#[tactic(auto, unfolding(crate::specs::StableStep::stable_next, solver::specs::Evaluated::evaluated))]
pub fn stable_next(
    blend: Blend,
    maxdensity: f64,
    t: f64,
    p: f64,
    spot: StableSpot,
) -> Standing<StableSpot>
    ensures { result ≡ stable_next maxdensity t p (evaluated blend) spot }
{
    match spot {
        StableSpot::LiquidSearch(at) => {
            let c = solver_density::conditions(maxdensity, t, p, DensityInitialization::Liquid);
            liquid_search_on(maxdensity, t, p, density_next(blend, c, at))
        }
        StableSpot::VaporSearch { liquid, at } => {
            let c = solver_density::conditions(maxdensity, t, p, DensityInitialization::Vapor);
            vapor_search_on(liquid, density_next(blend, c, at))
        }
        StableSpot::LiquidPotential { liquid, vapor } => {
            liquid_potential_on(
                liquid,
                vapor,
                evaluations::chemical_potential(blend, t, liquid),
            )
        }
        StableSpot::VaporPotential {
            liquid,
            vapor,
            potential,
        } => vapor_potential_on(
            liquid,
            vapor,
            potential,
            evaluations::chemical_potential(blend, t, vapor),
        ),
    }
}

// the density of a spot's evaluation
#[tactic(auto, unfolding(crate::specs::StableStep::stable_at))]
pub fn stable_at(maxdensity: f64, t: f64, p: f64, spot: StableSpot) -> f64
    ensures { result ≡ stable_at maxdensity t p spot }
{
    match spot {
        StableSpot::LiquidSearch(at) => {
            let c = solver_density::conditions(maxdensity, t, p, DensityInitialization::Liquid);
            density_at(c, at)
        }
        StableSpot::VaporSearch { at, .. } => {
            let c = solver_density::conditions(maxdensity, t, p, DensityInitialization::Vapor);
            density_at(c, at)
        }
        StableSpot::LiquidPotential { liquid, .. } => liquid,
        StableSpot::VaporPotential { vapor, .. } => vapor,
    }
}

// where a search begins
#[tactic(auto, unfolding(crate::specs::StableStep::stable_begin))]
pub fn stable_begin(maxdensity: f64, t: f64, p: f64) -> Standing<StableSpot>
    ensures { result ≡ stable_begin maxdensity t p }
{
    let c = solver_density::conditions(maxdensity, t, p, DensityInitialization::Liquid);
    liquid_search_on(maxdensity, t, p, density_begin(c))
}
