// Kind 9 one evaluation at a time.
ghost use Rattle.std.specs.Prelude.{◌≡◌};
ghost use Rattle.solver.specs.Evaluated.{evaluated};
ghost use Rattle.solver_binary_step.specs.BinaryStep.{pressure_begin, pressure_at, pressure_next};

use crate::types::PressureSpot;
use eos::Blend;
use solver::{Progress, Refusal};
use std::ops::ControlFlow;

// where a search begins, z0 and z1 being the fractions
#[tactic(auto, unfolding(crate::specs::BinaryStep::pressure_begin))]
pub fn pressure_begin(
    maxdensity: f64,
    z0: f64,
    z1: f64,
    temperature: Option<f64>,
    density: Option<f64>,
) -> Progress<PressureSpot>
    ensures { result ≡ pressure_begin maxdensity z0 z1 temperature density }
{
    let at = solver_binary::start_unknowns(maxdensity, z0, z1, temperature, density);
    ControlFlow::Continue(PressureSpot { rounds: 199, at })
}

// the density that a look shows of a spot's evaluation
#[tactic(auto, unfolding(crate::specs::BinaryStep::pressure_at))]
pub fn pressure_at(spot: PressureSpot) -> f64
    ensures { result ≡ pressure_at spot }
{
    spot.at.rho0 + spot.at.rho1
}

// the one evaluation at a spot, and where it leads
#[tactic(auto, unfolding(crate::specs::BinaryStep::pressure_next, solver::specs::Evaluated::evaluated))]
pub fn pressure_next(
    blend: Blend,
    maxdensity: f64,
    pressure: f64,
    spot: PressureSpot,
) -> Progress<PressureSpot>
    ensures { result ≡ pressure_next maxdensity pressure (evaluated blend) spot }
{
    let p = spot.at;
    let y = evaluations::criticality_conditions_p(blend, pressure, p.t, p.rho0, p.rho1);
    solver::onward(
        spot.rounds,
        Refusal::NotConverged,
        solver_binary::round_p(maxdensity, p, y),
    )
}
