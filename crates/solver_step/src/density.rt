// Kind 1 one evaluation at a time.
ghost use Rattle.std.specs.Prelude.{◌≡◌};
ghost use Rattle.solver.specs.Evaluated.{evaluated};
ghost use Rattle.solver_step.specs.DensityStep.{phase_answer, slope_at, arrived_at, slope_on, density_at, first_on, nearest_on, vapor_on, liquid_on, detour_at, curvature_on, density_next, density_begin};

use crate::spinodal::{branch_begin, branch_next, spinodal_next, spinodal_start};
use crate::types::{DensitySpot, Phase, SpinodalSpot, Standing};
use eos::Blend;
use evaluations::Pressure;
use solver::{Answer, Progress, Refusal};
use solver_density::{Both, Branch, Conditions, Detour, Nearest, SlopeOutcome};
use std::ops::ControlFlow;

// how a density search ended, as an answer
#[tactic(auto, unfolding(crate::specs::DensityStep::phase_answer))]
pub fn phase_answer(phase: Phase) -> Answer
    ensures { result ≡ phase_answer phase }
{
    solver_density::found_density(phase?)
}

// The next round, `left` being left with it. Not solver::onward: a density search ends with a density, and its rounds stand in the variant.
fn slope_at(left: u64, rho: f64) -> Standing<DensitySpot>
    ensures { result ≡ slope_at left rho }
{
    match left.checked_sub(1) {
        Some(left) => ControlFlow::Continue(DensitySpot::Slope { left, rho }),
        None => ControlFlow::Break(Err(Refusal::NotConverged)),
    }
}

// a detour's end
#[tactic(auto, unfolding(crate::specs::DensityStep::arrived_at))]
fn arrived_at(left: u64, answer: Answer) -> Standing<DensitySpot>
    ensures { result ≡ arrived_at left answer }
{
    match answer {
        Ok(found) => slope_at(left, found.first),
        Err(refusal) => ControlFlow::Break(Err(refusal)),
    }
}

// where a round at rho leads, `left` being left after it
#[tactic(auto, unfolding(crate::specs::DensityStep::slope_on))]
fn slope_on(left: u64, rho: f64, outcome: SlopeOutcome) -> Standing<DensitySpot>
    ensures { result ≡ slope_on left rho outcome }
{
    match outcome {
        SlopeOutcome::NotFinite => ControlFlow::Break(Err(Refusal::NotFinite)),
        SlopeOutcome::Converged(found) => ControlFlow::Break(Ok(found)),
        SlopeOutcome::Next(next) => slope_at(left, next),
        SlopeOutcome::Unstable(error) => ControlFlow::Continue(DensitySpot::Curvature {
            left,
            rho,
            error,
        }),
    }
}

// where the first round leads
#[tactic(auto, unfolding(crate::specs::DensityStep::first_on))]
fn first_on(c: Conditions, outcome: SlopeOutcome) -> Standing<DensitySpot>
    ensures { result ≡ first_on c outcome }
{
    match outcome {
        SlopeOutcome::NotFinite => ControlFlow::Break(Err(Refusal::NotFinite)),
        SlopeOutcome::Converged(found) => ControlFlow::Break(Ok(found)),
        SlopeOutcome::Next(next) => slope_at(49, next),
        SlopeOutcome::Unstable(_) => ControlFlow::Continue(DensitySpot::Slope {
            left: 49,
            rho: solver_density::correct(c),
        }),
    }
}

// where the nearest spinodal's search stands, or what it leads to
#[tactic(auto, unfolding(crate::specs::DensityStep::nearest_on))]
fn nearest_on(
    c: Conditions,
    left: u64,
    way: Nearest,
    place: Progress<SpinodalSpot>,
) -> Standing<DensitySpot>
    ensures { result ≡ nearest_on c left way place }
{
    match place {
        ControlFlow::Break(Ok(sp)) => arrived_at(left, solver_density::after_nearest(c, way, sp)),
        ControlFlow::Break(Err(refusal)) => ControlFlow::Break(Err(refusal)),
        ControlFlow::Continue(at) => ControlFlow::Continue(DensitySpot::NearestSpinodal {
            left,
            way,
            at,
        }),
    }
}

#[tactic(auto, unfolding(crate::specs::DensityStep::vapor_on))]
fn vapor_on(
    c: Conditions,
    left: u64,
    way: Both,
    liquid: f64,
    place: Progress<SpinodalSpot>,
) -> Standing<DensitySpot>
    ensures { result ≡ vapor_on c left way liquid place }
{
    match place {
        ControlFlow::Break(Ok(v)) => slope_at(left, solver_density::after_both(c, way, liquid, v)),
        ControlFlow::Break(Err(refusal)) => ControlFlow::Break(Err(refusal)),
        ControlFlow::Continue(at) => ControlFlow::Continue(DensitySpot::VaporSpinodal {
            left,
            way,
            liquid,
            at,
        }),
    }
}

#[tactic(auto, unfolding(crate::specs::DensityStep::liquid_on))]
fn liquid_on(
    c: Conditions,
    left: u64,
    way: Both,
    place: Progress<SpinodalSpot>,
) -> Standing<DensitySpot>
    ensures { result ≡ liquid_on c left way place }
{
    match place {
        ControlFlow::Break(Ok(l)) => {
            let begin = branch_begin(c.maxdensity, Branch::Vapor);
            vapor_on(c, left, way, l.second, begin)
        }
        ControlFlow::Break(Err(refusal)) => ControlFlow::Break(Err(refusal)),
        ControlFlow::Continue(at) => ControlFlow::Continue(DensitySpot::LiquidSpinodal {
            left,
            way,
            at,
        }),
    }
}

// a detour begins
#[tactic(auto, unfolding(crate::specs::DensityStep::detour_at))]
fn detour_at(c: Conditions, left: u64, detour: Detour) -> Standing<DensitySpot>
    ensures { result ≡ detour_at c left detour }
{
    match detour {
        Detour::ByNearest(way) => nearest_on(c, left, way, spinodal_start(c.start)),
        Detour::ByBoth(way) => liquid_on(c, left, way, branch_begin(c.maxdensity, Branch::Liquid)),
    }
}

#[tactic(auto, unfolding(crate::specs::DensityStep::curvature_on))]
fn curvature_on(
    c: Conditions,
    left: u64,
    rho: f64,
    error: f64,
    y: Pressure,
) -> Standing<DensitySpot>
    ensures { result ≡ curvature_on c left rho error y }
{
    if solver_density::all_finite(y) {
        let detour = solver_density::detour_of(c.maxdensity, rho, error, y.d2p_drho2);
        detour_at(c, left, detour)
    } else {
        ControlFlow::Break(Err(Refusal::NotFinite))
    }
}

// the one evaluation at a spot, and where it leads
#[tactic(auto, unfolding(crate::specs::DensityStep::density_next, solver::specs::Evaluated::evaluated))]
pub fn density_next(blend: Blend, c: Conditions, spot: DensitySpot) -> Standing<DensitySpot>
    ensures { result ≡ density_next c (evaluated blend) spot }
{
    let maxdensity = c.maxdensity;
    let t = c.temperature;
    match spot {
        DensitySpot::First => {
            let y = evaluations::p_dpdrho(blend, t, c.start);
            first_on(c, solver_density::slope_round(c, c.start, y))
        }
        DensitySpot::Slope { left, rho } => {
            let y = evaluations::p_dpdrho(blend, t, rho);
            slope_on(left, rho, solver_density::slope_round(c, rho, y))
        }
        DensitySpot::Curvature { left, rho, error } => {
            let y = evaluations::p_dpdrho_d2pdrho2(blend, t, rho);
            curvature_on(c, left, rho, error, y)
        }
        DensitySpot::NearestSpinodal { left, way, at } => {
            nearest_on(c, left, way, spinodal_next(blend, maxdensity, t, at))
        }
        DensitySpot::LiquidSpinodal { left, way, at } => {
            liquid_on(
                c,
                left,
                way,
                branch_next(blend, maxdensity, t, Branch::Liquid, at),
            )
        }
        DensitySpot::VaporSpinodal {
            left,
            way,
            liquid,
            at,
        } => vapor_on(
            c,
            left,
            way,
            liquid,
            branch_next(blend, maxdensity, t, Branch::Vapor, at),
        ),
    }
}

// the density of a spot's evaluation
#[tactic(auto, unfolding(crate::specs::DensityStep::density_at))]
pub fn density_at(c: Conditions, spot: DensitySpot) -> f64
    ensures { result ≡ density_at c spot }
{
    match spot {
        DensitySpot::First => c.start,
        DensitySpot::Slope { rho, .. } | DensitySpot::Curvature { rho, .. } => rho,
        DensitySpot::NearestSpinodal { at, .. }
        | DensitySpot::LiquidSpinodal { at, .. }
        | DensitySpot::VaporSpinodal { at, .. } => at.at,
    }
}

// where a search begins
#[tactic(auto, unfolding(crate::specs::DensityStep::density_begin))]
pub fn density_begin(c: Conditions) -> Standing<DensitySpot>
    ensures { result ≡ density_begin c }
{
    if c.start <= 0.0 {
        ControlFlow::Break(Err(Refusal::StartNotPositive))
    } else {
        ControlFlow::Continue(DensitySpot::First)
    }
}
