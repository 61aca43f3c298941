// The places of kinds 1 to 4 as numbers and back.
ghost use Rattle.std.specs.Prelude.{◌≡◌};
ghost use Rattle.std.specs.declared.ops.ControlFlow.TheVariants.{Continue};
ghost use Rattle.solver_step.specs.Stored.{spot_numbers, spinodal_numbers, spinodal_spot_by, spinodal_place_by, density_spot_numbers, density_spot_by, density_numbers, density_place_by, staged as staged_numbers, potential_numbers, stable_numbers, stable_spot_by, stable_place_by};

use crate::density::phase_answer;
use crate::types::{DensitySpot, SpinodalSpot, StableSpot, Standing};
use solver::{Counters, Numbers, Progress, Values};
use solver_density::{Both, Nearest};
use std::ops::ControlFlow;

#[tactic(auto, unfolding(crate::specs::Stored::spot_numbers))]
fn spot_numbers(tag: u64, left: u64, way: u64, rounds: u64, x: f64, y: f64) -> Numbers
    ensures { result ≡ spot_numbers tag left way rounds x y }
{
    Numbers {
        counters: Counters {
            tag,
            left,
            way,
            rounds,
            ..Counters::default()
        },
        values: Values {
            first: x,
            second: y,
            third: 0.0,
        },
    }
}

#[tactic(auto, unfolding(crate::specs::Stored::spinodal_numbers))]
pub fn spinodal_numbers(place: Progress<SpinodalSpot>) -> Numbers
    ensures { result ≡ spinodal_numbers place }
{
    match place {
        ControlFlow::Break(answer) => solver::ended_numbers(answer),
        ControlFlow::Continue(spot) => spot_numbers(1, 0, 0, spot.rounds, spot.at, 0.0),
    }
}

#[tactic(auto, unfolding(crate::specs::Stored::spinodal_spot_by))]
fn spinodal_spot_by(n: Numbers) -> SpinodalSpot
    ensures { result ≡ spinodal_spot_by n }
{
    SpinodalSpot {
        rounds: n.counters.rounds,
        at: n.values.first,
    }
}

#[tactic(auto, unfolding(crate::specs::Stored::spinodal_place_by))]
pub fn spinodal_place_by(n: Numbers) -> Progress<SpinodalSpot>
    ensures { result ≡ spinodal_place_by n }
{
    match n.counters.tag {
        0 => ControlFlow::Break(solver::answer_by(n.counters.status, n.values)),
        _ => ControlFlow::Continue(spinodal_spot_by(n)),
    }
}

#[tactic(auto, unfolding(crate::specs::Stored::density_spot_numbers))]
fn density_spot_numbers(spot: DensitySpot) -> Numbers
    ensures { result ≡ density_spot_numbers spot }
{
    match spot {
        DensitySpot::First => spot_numbers(1, 0, 0, 0, 0.0, 0.0),
        DensitySpot::Slope { left, rho } => spot_numbers(2, left, 0, 0, rho, 0.0),
        DensitySpot::Curvature { left, rho, error } => spot_numbers(3, left, 0, 0, rho, error),
        DensitySpot::NearestSpinodal { left, way, at } => {
            spot_numbers(4, left, u64::from(way), at.rounds, at.at, 0.0)
        }
        DensitySpot::LiquidSpinodal { left, way, at } => {
            spot_numbers(5, left, u64::from(way), at.rounds, at.at, 0.0)
        }
        DensitySpot::VaporSpinodal {
            left,
            way,
            liquid,
            at,
        } => spot_numbers(6, left, u64::from(way), at.rounds, at.at, liquid),
    }
}

#[tactic(auto, unfolding(crate::specs::Stored::density_spot_by))]
fn density_spot_by(n: Numbers) -> DensitySpot
    ensures { result ≡ density_spot_by n }
{
    let left = n.counters.left;
    let rho = n.values.first;
    match n.counters.tag {
        1 => DensitySpot::First,
        2 => DensitySpot::Slope { left, rho },
        3 => DensitySpot::Curvature {
            left,
            rho,
            error: n.values.second,
        },
        4 => DensitySpot::NearestSpinodal {
            left,
            way: Nearest::from(n.counters.way),
            at: spinodal_spot_by(n),
        },
        5 => DensitySpot::LiquidSpinodal {
            left,
            way: Both::from(n.counters.way),
            at: spinodal_spot_by(n),
        },
        _ => DensitySpot::VaporSpinodal {
            left,
            way: Both::from(n.counters.way),
            liquid: n.values.second,
            at: spinodal_spot_by(n),
        },
    }
}

#[tactic(auto, unfolding(crate::specs::Stored::density_numbers))]
pub fn density_numbers(place: Standing<DensitySpot>) -> Numbers
    ensures { result ≡ density_numbers place }
{
    match place {
        ControlFlow::Break(phase) => solver::ended_numbers(phase_answer(phase)),
        ControlFlow::Continue(spot) => density_spot_numbers(spot),
    }
}

#[tactic(auto, unfolding(crate::specs::Stored::density_place_by))]
pub fn density_place_by(n: Numbers) -> Standing<DensitySpot>
    ensures { result ≡ density_place_by n }
{
    match n.counters.tag {
        0 => ControlFlow::Break(solver::answer_by(n.counters.status, n.values.first)),
        _ => ControlFlow::Continue(density_spot_by(n)),
    }
}

#[tactic(auto, unfolding(crate::specs::Stored::staged))]
fn staged(stage: u64, status: u64, z: f64, n: Numbers) -> Numbers
    ensures { result ≡ staged_numbers stage status z n }
{
    Numbers {
        counters: Counters {
            stage,
            status,
            ..n.counters
        },
        values: Values {
            third: z,
            ..n.values
        },
    }
}

#[tactic(auto, unfolding(crate::specs::Stored::potential_numbers))]
fn potential_numbers(stage: u64, x: f64, y: f64, z: f64) -> Numbers
    ensures { result ≡ potential_numbers stage x y z }
{
    Numbers {
        counters: Counters {
            stage,
            ..Counters::default()
        },
        values: Values {
            first: x,
            second: y,
            third: z,
        },
    }
}

#[tactic(auto, unfolding(crate::specs::Stored::stable_numbers))]
fn stable_spot_numbers(spot: StableSpot) -> Numbers
    ensures { result ≡ stable_numbers (Continue spot) }
{
    match spot {
        StableSpot::LiquidSearch(at) => staged(1, 0, 0.0, density_spot_numbers(at)),
        StableSpot::VaporSearch { liquid, at } => {
            let answer = phase_answer(liquid);
            let found = solver::values(answer);
            staged(
                2,
                solver::status(answer),
                found.first,
                density_spot_numbers(at),
            )
        }
        StableSpot::LiquidPotential { liquid, vapor } => potential_numbers(3, liquid, vapor, 0.0),
        StableSpot::VaporPotential {
            liquid,
            vapor,
            potential,
        } => potential_numbers(4, liquid, vapor, potential),
    }
}

#[tactic(auto, unfolding(crate::specs::Stored::stable_numbers))]
pub fn stable_numbers(place: Standing<StableSpot>) -> Numbers
    ensures { result ≡ stable_numbers place }
{
    match place {
        ControlFlow::Break(phase) => solver::ended_numbers(phase_answer(phase)),
        ControlFlow::Continue(spot) => stable_spot_numbers(spot),
    }
}

#[tactic(auto, unfolding(crate::specs::Stored::stable_spot_by))]
fn stable_spot_by(n: Numbers) -> StableSpot
    ensures { result ≡ stable_spot_by n }
{
    let v = n.values;
    match n.counters.stage {
        1 => StableSpot::LiquidSearch(density_spot_by(n)),
        2 => StableSpot::VaporSearch {
            liquid: solver::answer_by(n.counters.status, v.third),
            at: density_spot_by(n),
        },
        3 => StableSpot::LiquidPotential {
            liquid: v.first,
            vapor: v.second,
        },
        _ => StableSpot::VaporPotential {
            liquid: v.first,
            vapor: v.second,
            potential: v.third,
        },
    }
}

#[tactic(auto, unfolding(crate::specs::Stored::stable_place_by))]
pub fn stable_place_by(n: Numbers) -> Standing<StableSpot>
    ensures { result ≡ stable_place_by n }
{
    match n.counters.stage {
        0 => ControlFlow::Break(solver::answer_by(n.counters.status, n.values.first)),
        _ => ControlFlow::Continue(stable_spot_by(n)),
    }
}
