// A search of any kind under way: its first state and its step.
ghost use Rattle.std.specs.Prelude.{◌≡◌, ◌<◌};
ghost use Rattle.std.specs.ControlFlow.{MatchControlFlow};
ghost use Rattle.solver.specs.Evaluated.{evaluated};
ghost use Rattle.solver_state.specs.State.{begin_of, start_of, stepped_to, step_of};

use crate::types::{Job, State};
use eos::Blend;
use solver::Numbers;
use solver_density::{Branch, Conditions};
use std::ops::ControlFlow;

#[tactic(auto, unfolding(crate::specs::State::begin_of))]
fn begin(job: Job) -> Numbers
    ensures { result ≡ begin_of job }
{
    match job {
        Job::Density(c) => solver_step::density_numbers(solver_step::density_begin(c)),
        Job::StableDensity {
            maxdensity,
            temperature,
            pressure,
        } => {
            let place = solver_step::stable_begin(maxdensity, temperature, pressure);
            solver_step::stable_numbers(place)
        }
        Job::PressureSpinodal { start, .. } => solver_step::spinodal_numbers(
            solver_step::spinodal_start(start),
        ),
        Job::BranchSpinodal {
            maxdensity,
            branch,
            ..
        } => solver_step::spinodal_numbers(solver_step::branch_begin(maxdensity, branch)),
        Job::CriticalPoint {
            maxdensity,
            temperature,
            density,
        } => {
            let rho = solver_critical::start_density(maxdensity, density);
            let place = solver_critical_step::critical_begin(rho, temperature);
            solver_critical_step::critical_numbers(place)
        }
        Job::StabilitySpinodals { maxdensity, .. } => {
            let place = solver_critical_step::spinodals_begin(maxdensity);
            solver_critical_step::spinodals_numbers(place)
        }
        Job::CriticalPointBinaryT {
            maxdensity,
            z0,
            z1,
            density,
            ..
        } => {
            let place = solver_binary_step::temperature_begin(maxdensity, z0, z1, density);
            solver_binary_step::temperature_numbers(place)
        }
        Job::CriticalPointBinaryP {
            maxdensity,
            z0,
            z1,
            temperature,
            density,
            ..
        } => {
            let place = solver_binary_step::pressure_begin(
                maxdensity,
                z0,
                z1,
                temperature,
                density,
            );
            solver_binary_step::pressure_numbers(place)
        }
    }
}

// a search before its first evaluation
#[tactic(auto, unfolding(crate::specs::State::start_of))]
pub fn start(job: Job) -> State
    ensures { result ≡ start_of job }
{
    State {
        numbers: begin(job),
        evaluations: 0,
        latest: 0.0,
    }
}

// A search stepped from where it stands: the same state at its end, else what `go` makes of the spot, the numbers that its one evaluation
// leads to and the density of that.
fn stepped<E: Drop, S, F: FnOnce(S) -> (Numbers, f64)>(
    place: ControlFlow<E, S>,
    state: State,
    go: F,
) -> State
where
    F: Drop,
    requires { (state.evaluations < 0xffff_ffff_ffff_ffff) × F.IsAlwaysCallable go }
    ensures { MatchControlFlow place (λ spot. (y : _) × F.post go spot y × (result ≡ stepped_to y.0 y.1 state)) (λ _. result ≡ state) }
{
    match place {
        ControlFlow::Break(_) => state,
        ControlFlow::Continue(spot) => {
            let (numbers, latest) = go(spot);
            State {
                numbers,
                evaluations: state.evaluations + 1,
                latest,
            }
        }
    }
}

// One evaluation, or none at the end. The count must not be the last of its type.
pub fn step(blend: Blend, job: Job, state: State) -> State
    requires { state.evaluations < 0xffff_ffff_ffff_ffff }
    ensures { result ≡ step_of job (evaluated blend) state }
{
    let numbers = state.numbers;
    match job {
        Job::Density(c) => stepped(solver_step::density_place_by(numbers), state, |spot| {
            let next = solver_step::density_next(blend, c, spot);
            (
                solver_step::density_numbers(next),
                solver_step::density_at(c, spot),
            )
        }),
        Job::StableDensity {
            maxdensity,
            temperature,
            pressure,
        } => stepped(solver_step::stable_place_by(numbers), state, |spot| {
            let next = solver_step::stable_next(blend, maxdensity, temperature, pressure, spot);
            let latest = solver_step::stable_at(maxdensity, temperature, pressure, spot);
            (solver_step::stable_numbers(next), latest)
        }),
        Job::PressureSpinodal {
            maxdensity,
            temperature,
            ..
        } => stepped(solver_step::spinodal_place_by(numbers), state, |spot| {
            let next = solver_step::spinodal_next(blend, maxdensity, temperature, spot);
            (solver_step::spinodal_numbers(next), spot.at)
        }),
        Job::BranchSpinodal {
            maxdensity,
            temperature,
            branch,
        } => stepped(solver_step::spinodal_place_by(numbers), state, |spot| {
            let next = solver_step::branch_next(blend, maxdensity, temperature, branch, spot);
            (solver_step::spinodal_numbers(next), spot.at)
        }),
        Job::CriticalPoint {
            maxdensity,
            density,
            ..
        } => stepped(
            solver_critical_step::critical_place_by(numbers),
            state,
            |spot| {
                let rho = solver_critical::start_density(maxdensity, density);
                let next = solver_critical_step::critical_next(blend, maxdensity, rho, spot);
                (
                    solver_critical_step::critical_numbers(next),
                    solver_critical_step::critical_at(spot),
                )
            },
        ),
        Job::StabilitySpinodals {
            maxdensity,
            temperature,
        } => stepped(
            solver_critical_step::spinodals_place_by(numbers),
            state,
            |spot| {
                let next = solver_critical_step::spinodals_next(
                    blend,
                    maxdensity,
                    temperature,
                    spot,
                );
                (
                    solver_critical_step::spinodals_numbers(next),
                    solver_critical_step::spinodals_at(spot),
                )
            },
        ),
        Job::CriticalPointBinaryT {
            maxdensity,
            temperature,
            ..
        } => stepped(
            solver_binary_step::temperature_place_by(numbers),
            state,
            |spot| {
                let next = solver_binary_step::temperature_next(
                    blend,
                    maxdensity,
                    temperature,
                    spot,
                );
                (
                    solver_binary_step::temperature_numbers(next),
                    solver_binary_step::temperature_at(spot),
                )
            },
        ),
        Job::CriticalPointBinaryP {
            maxdensity,
            pressure,
            ..
        } => stepped(
            solver_binary_step::pressure_place_by(numbers),
            state,
            |spot| {
                let next = solver_binary_step::pressure_next(blend, maxdensity, pressure, spot);
                (
                    solver_binary_step::pressure_numbers(next),
                    solver_binary_step::pressure_at(spot),
                )
            },
        ),
    }
}
