// The places of kinds 8 and 9 as the numbers that a board stores, and back.
ghost use Rattle.std.specs.Prelude.{◌≡◌};
ghost use Rattle.solver_binary_step.specs.Stored.{spot_numbers, temperature_numbers, temperature_spot_by, temperature_place_by, pressure_numbers, pressure_spot_by, pressure_place_by};

use crate::types::{PressureSpot, TemperatureSpot};
use solver::{Counters, Numbers, Progress, Values};
use solver_binary::{Densities, Unknowns};
use std::ops::ControlFlow;

#[tactic(auto, unfolding(crate::specs::Stored::spot_numbers))]
fn spot_numbers(rounds: u64, first: f64, second: f64, third: f64) -> Numbers
    ensures { result ≡ spot_numbers rounds first second third }
{
    Numbers {
        counters: Counters {
            tag: 1,
            rounds,
            ..Counters::default()
        },
        values: Values {
            first,
            second,
            third,
        },
    }
}

#[tactic(auto, unfolding(crate::specs::Stored::temperature_numbers))]
pub fn temperature_numbers(place: Progress<TemperatureSpot>) -> Numbers
    ensures { result ≡ temperature_numbers place }
{
    match place {
        ControlFlow::Break(answer) => solver::ended_numbers(answer),
        ControlFlow::Continue(spot) => {
            spot_numbers(spot.rounds, spot.at.rho0, spot.at.rho1, 0.0)
        }
    }
}

#[tactic(auto, unfolding(crate::specs::Stored::temperature_spot_by))]
fn temperature_spot_by(n: Numbers) -> TemperatureSpot
    ensures { result ≡ temperature_spot_by n }
{
    TemperatureSpot {
        rounds: n.counters.rounds,
        at: Densities {
            rho0: n.values.first,
            rho1: n.values.second,
        },
    }
}

#[tactic(auto, unfolding(crate::specs::Stored::temperature_place_by))]
pub fn temperature_place_by(n: Numbers) -> Progress<TemperatureSpot>
    ensures { result ≡ temperature_place_by n }
{
    match n.counters.tag {
        0 => ControlFlow::Break(solver::answer_by(n.counters.status, n.values)),
        _ => ControlFlow::Continue(temperature_spot_by(n)),
    }
}

#[tactic(auto, unfolding(crate::specs::Stored::pressure_numbers))]
pub fn pressure_numbers(place: Progress<PressureSpot>) -> Numbers
    ensures { result ≡ pressure_numbers place }
{
    match place {
        ControlFlow::Break(answer) => solver::ended_numbers(answer),
        ControlFlow::Continue(spot) => {
            spot_numbers(spot.rounds, spot.at.t, spot.at.rho0, spot.at.rho1)
        }
    }
}

#[tactic(auto, unfolding(crate::specs::Stored::pressure_spot_by))]
fn pressure_spot_by(n: Numbers) -> PressureSpot
    ensures { result ≡ pressure_spot_by n }
{
    PressureSpot {
        rounds: n.counters.rounds,
        at: Unknowns {
            t: n.values.first,
            rho0: n.values.second,
            rho1: n.values.third,
        },
    }
}

#[tactic(auto, unfolding(crate::specs::Stored::pressure_place_by))]
pub fn pressure_place_by(n: Numbers) -> Progress<PressureSpot>
    ensures { result ≡ pressure_place_by n }
{
    match n.counters.tag {
        0 => ControlFlow::Break(solver::answer_by(n.counters.status, n.values)),
        _ => ControlFlow::Continue(pressure_spot_by(n)),
    }
}
