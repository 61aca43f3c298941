// Kind 8 one evaluation at a time.
ghost use Rattle.std.specs.Prelude.{◌≡◌};
ghost use Rattle.solver.specs.Evaluated.{evaluated};
ghost use Rattle.solver_binary_step.specs.BinaryStep.{temperature_begin, temperature_at, temperature_next};

use crate::types::TemperatureSpot;
use eos::Blend;
use solver::{Progress, Refusal};
use std::ops::ControlFlow;

// where a search begins, z0 and z1 being the fractions
#[tactic(auto, unfolding(crate::specs::BinaryStep::temperature_begin))]
pub fn temperature_begin(
    maxdensity: f64,
    z0: f64,
    z1: f64,
    density: Option<f64>,
) -> Progress<TemperatureSpot>
    ensures { result ≡ temperature_begin maxdensity z0 z1 density }
{
    let at = solver_binary::start_densities(maxdensity, z0, z1, density);
    ControlFlow::Continue(TemperatureSpot { rounds: 199, at })
}

// the density that a look shows of a spot's evaluation
#[tactic(auto, unfolding(crate::specs::BinaryStep::temperature_at))]
pub fn temperature_at(spot: TemperatureSpot) -> f64
    ensures { result ≡ temperature_at spot }
{
    spot.at.rho0 + spot.at.rho1
}

// the one evaluation at a spot, and where it leads
#[tactic(auto, unfolding(crate::specs::BinaryStep::temperature_next, solver::specs::Evaluated::evaluated))]
pub fn temperature_next(
    blend: Blend,
    maxdensity: f64,
    t: f64,
    spot: TemperatureSpot,
) -> Progress<TemperatureSpot>
    ensures { result ≡ temperature_next maxdensity t (evaluated blend) spot }
{
    let p = spot.at;
    let y = evaluations::criticality_conditions_t(blend, t, p.rho0, p.rho1);
    solver::onward(
        spot.rounds,
        Refusal::NotConverged,
        solver_binary::round_t(maxdensity, p, y),
    )
}
