// The places of kinds 5 to 7 as the numbers that a board stores, and back.
ghost use Rattle.std.specs.Prelude.{◌≡◌};
ghost use Rattle.solver_critical_step.specs.Stored.{spot_numbers, critical_spot_numbers, critical_numbers, hkm_spot_by, critical_spot_by, critical_place_by, spinodals_numbers, stability_spot_by, spinodals_spot_by, spinodals_place_by};

use crate::types::{CriticalSpot, HkmSpot, SpinodalsSpot, StabilitySpot};
use solver::{Counters, Numbers, Progress, Values};
use solver_critical::Point;
use std::ops::ControlFlow;

#[tactic(auto, unfolding(crate::specs::Stored::spot_numbers))]
fn spot_numbers(stage: u64, tag: u64, way: u64, rounds: u64, x: f64, y: f64) -> Numbers
    ensures { result ≡ spot_numbers stage tag way rounds x y }
{
    Numbers {
        counters: Counters {
            stage,
            tag,
            way,
            rounds,
            ..Counters::default()
        },
        values: Values {
            first: x,
            second: y,
            third: 0.0,
        },
    }
}

#[tactic(auto, unfolding(crate::specs::Stored::critical_spot_numbers))]
fn critical_spot_numbers(stage: u64, spot: CriticalSpot) -> Numbers
    ensures { result ≡ critical_spot_numbers stage spot }
{
    match spot {
        CriticalSpot::Given(at) => spot_numbers(stage, 1, 0, at.rounds, at.at.t, at.at.rho),
        CriticalSpot::Trial { trial, at } => {
            spot_numbers(stage, 2, trial, at.rounds, at.at.t, at.at.rho)
        }
    }
}

#[tactic(auto, unfolding(crate::specs::Stored::critical_numbers))]
pub fn critical_numbers(place: Progress<CriticalSpot>) -> Numbers
    ensures { result ≡ critical_numbers place }
{
    match place {
        ControlFlow::Break(answer) => solver::ended_numbers(answer),
        ControlFlow::Continue(spot) => critical_spot_numbers(0, spot),
    }
}

#[tactic(auto, unfolding(crate::specs::Stored::hkm_spot_by))]
fn hkm_spot_by(n: Numbers) -> HkmSpot
    ensures { result ≡ hkm_spot_by n }
{
    HkmSpot {
        rounds: n.counters.rounds,
        at: Point {
            t: n.values.first,
            rho: n.values.second,
        },
    }
}

#[tactic(auto, unfolding(crate::specs::Stored::critical_spot_by))]
fn critical_spot_by(n: Numbers) -> CriticalSpot
    ensures { result ≡ critical_spot_by n }
{
    let at = hkm_spot_by(n);
    match n.counters.tag {
        1 => CriticalSpot::Given(at),
        _ => CriticalSpot::Trial {
            trial: n.counters.way,
            at,
        },
    }
}

#[tactic(auto, unfolding(crate::specs::Stored::critical_place_by))]
pub fn critical_place_by(n: Numbers) -> Progress<CriticalSpot>
    ensures { result ≡ critical_place_by n }
{
    match n.counters.tag {
        0 => ControlFlow::Break(solver::answer_by(n.counters.status, n.values)),
        _ => ControlFlow::Continue(critical_spot_by(n)),
    }
}

#[tactic(auto, unfolding(crate::specs::Stored::spinodals_numbers))]
pub fn spinodals_numbers(place: Progress<SpinodalsSpot>) -> Numbers
    ensures { result ≡ spinodals_numbers place }
{
    match place {
        ControlFlow::Break(answer) => solver::ended_numbers(answer),
        ControlFlow::Continue(SpinodalsSpot::CriticalSearch(at)) => critical_spot_numbers(1, at),
        ControlFlow::Continue(SpinodalsSpot::VaporSpinodal { critical, at }) => {
            spot_numbers(2, 0, 0, at.rounds, at.at, critical)
        }
        ControlFlow::Continue(SpinodalsSpot::LiquidSpinodal { vapor, at }) => {
            spot_numbers(3, 0, 0, at.rounds, at.at, vapor)
        }
    }
}

#[tactic(auto, unfolding(crate::specs::Stored::stability_spot_by))]
fn stability_spot_by(n: Numbers) -> StabilitySpot
    ensures { result ≡ stability_spot_by n }
{
    StabilitySpot {
        rounds: n.counters.rounds,
        at: n.values.first,
    }
}

#[tactic(auto, unfolding(crate::specs::Stored::spinodals_spot_by))]
fn spinodals_spot_by(n: Numbers) -> SpinodalsSpot
    ensures { result ≡ spinodals_spot_by n }
{
    match n.counters.stage {
        1 => SpinodalsSpot::CriticalSearch(critical_spot_by(n)),
        2 => SpinodalsSpot::VaporSpinodal {
            critical: n.values.second,
            at: stability_spot_by(n),
        },
        _ => SpinodalsSpot::LiquidSpinodal {
            vapor: n.values.second,
            at: stability_spot_by(n),
        },
    }
}

#[tactic(auto, unfolding(crate::specs::Stored::spinodals_place_by))]
pub fn spinodals_place_by(n: Numbers) -> Progress<SpinodalsSpot>
    ensures { result ≡ spinodals_place_by n }
{
    match n.counters.stage {
        0 => ControlFlow::Break(solver::answer_by(n.counters.status, n.values)),
        _ => ControlFlow::Continue(spinodals_spot_by(n)),
    }
}
