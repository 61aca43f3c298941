// _density_iteration of density_iteration.rs.
ghost use Rattle.std.specs.Prelude.{◌≡◌, ◌≤◌};
ghost use Rattle.float.specs.Sign.{finite_of};
ghost use Rattle.eos.specs.Cubic.{max_density};
ghost use Rattle.solver.specs.Search.{run};
ghost use Rattle.solver.specs.Evaluated.{evaluated};
ghost use Rattle.solver_density.specs.Density.{density as density_answer, start_of, conditions_of, detour_of, converged, corrected, newton as newton_of, beside_spinodal, after_nearest, after_both, vapor as vapor_tree, detour as detour_tree, unstable as unstable_tree, density_from, density_search, density_iteration};
ghost use Rattle.solver_density.specs.Rounds.{newton_round, slope_round};

use crate::spinodal::{all_finite, branch_search, cap, spinodal_search};
use crate::types::{Both, Branch, Conditions, Detour, Nearest, SlopeOutcome};
use eos::Blend;
use evaluations::Pressure;
use solver::{Answer, DensityInitialization, Ran, Refusal, Values};

// a density as an answer
pub fn found_density(rho: f64) -> Answer
    ensures { result ≡ density_answer rho }
{
    Ok(Values {
        first: rho,
        ..Values::default()
    })
}

#[tactic(auto, unfolding(crate::specs::Density::start_of))]
fn start_of(maxdensity: f64, t: f64, p: f64, initial: DensityInitialization) -> f64
    ensures { result ≡ start_of maxdensity t p initial }
{
    match initial {
        DensityInitialization::Vapor => p / t,
        DensityInitialization::Liquid => maxdensity,
        DensityInitialization::InitialDensity(rho) => rho,
    }
}

// where a density search begins
#[tactic(auto, unfolding(crate::specs::Density::conditions_of))]
pub fn conditions(maxdensity: f64, t: f64, p: f64, initial: DensityInitialization) -> Conditions
    ensures { result ≡ conditions_of maxdensity t p initial }
{
    Conditions {
        maxdensity,
        temperature: t,
        pressure: p,
        start: start_of(maxdensity, t, p, initial),
    }
}

// attempt to correct for poor initial density
#[tactic(auto, unfolding(crate::specs::Density::corrected))]
pub fn correct(c: Conditions) -> f64
    ensures { result ≡ corrected c }
{
    if c.start <= 0.15 * c.maxdensity {
        0.05 * c.start
    } else {
        float::min(1.1 * c.start, c.maxdensity)
    }
}

// the Newton step with its caps
#[tactic(auto, unfolding(crate::specs::Density::newton))]
fn newton(c: Conditions, rho: f64, error: f64, dpdrho: f64) -> f64
    ensures { result ≡ newton_of c rho error dpdrho }
{
    let delta_rho = cap(0.075 * c.maxdensity, -error / dpdrho);
    rho + float::max(delta_rho, -0.95 * rho)
}

#[tactic(auto, unfolding(crate::specs::Density::converged))]
fn has_converged(error: f64, rho: f64) -> bool
    ensures { result ≡ converged error rho }
{
    float::abs(error) < float::max(1e-12, rho * 1e-14)
}

#[tactic(auto, unfolding(crate::specs::Rounds::newton_round))]
fn newton_round(c: Conditions, rho: f64, error: f64, dpdrho: f64) -> SlopeOutcome
    ensures { result ≡ newton_round c rho error dpdrho }
{
    let next = newton(c, rho, error, dpdrho);
    if !float::is_finite(next) {
        return SlopeOutcome::NotFinite;
    }
    if has_converged(error, next) {
        return SlopeOutcome::Converged(next);
    }
    SlopeOutcome::Next(next)
}

// a round at rho, with its tests for 27
#[tactic(auto, unfolding(crate::specs::Rounds::slope_round))]
pub fn slope_round(c: Conditions, rho: f64, y: Pressure) -> SlopeOutcome
    ensures { result ≡ slope_round c rho y }
{
    if !float::is_finite(y.p) || !float::is_finite(y.dp_drho) {
        return SlopeOutcome::NotFinite;
    }
    let error = y.p - c.pressure;
    if float::is_negative(y.dp_drho) {
        SlopeOutcome::Unstable(error)
    } else {
        newton_round(c, rho, error, y.dp_drho)
    }
}

// which of the five detours leads out of the unstable region
#[tactic(auto, unfolding(crate::specs::Density::detour_of))]
pub fn detour_of(maxdensity: f64, rho: f64, error: f64, curvature: f64) -> Detour
    ensures { result ≡ detour_of maxdensity rho error curvature }
{
    if rho > 0.85 * maxdensity {
        return Detour::ByNearest(Nearest::HighDensity);
    }
    match (float::is_negative(error), float::is_negative(curvature)) {
        (true, true) => Detour::ByNearest(Nearest::BelowConcave),
        (true, false) => Detour::ByBoth(Both::BelowConvex),
        (false, true) => Detour::ByBoth(Both::AboveConcave),
        (false, false) => Detour::ByNearest(Nearest::AboveConvex),
    }
}

#[tactic(auto, unfolding(crate::specs::Density::beside_spinodal))]
fn beside_spinodal(c: Conditions, sp: Values) -> f64
    ensures { result ≡ beside_spinodal c sp }
{
    if float::is_negative(sp.first - c.pressure) {
        float::min(sp.second * 1.1, c.maxdensity)
    } else {
        0.001 * c.maxdensity
    }
}

// where a detour through the nearest spinodal leads
#[tactic(auto, unfolding(crate::specs::Density::after_nearest))]
pub fn after_nearest(c: Conditions, way: Nearest, sp: Values) -> Answer
    ensures { result ≡ after_nearest c way sp }
{
    let rho = sp.second;
    let below = float::is_negative(sp.first - c.pressure);
    match way {
        Nearest::HighDensity if rho > 0.85 * c.maxdensity => {
            if below {
                Err(Refusal::IterationFailed)
            } else {
                found_density(rho * 0.98)
            }
        }
        Nearest::HighDensity | Nearest::AboveConvex => found_density(beside_spinodal(c, sp)),
        Nearest::BelowConcave => {
            if below {
                found_density(0.8 * c.maxdensity)
            } else {
                found_density(rho * 0.8)
            }
        }
    }
}

// where a detour through both spinodals leads
#[tactic(auto, unfolding(crate::specs::Density::after_both))]
pub fn after_both(c: Conditions, way: Both, liquid: f64, v: Values) -> f64
    ensures { result ≡ after_both c way liquid v }
{
    let vapor = v.second;
    let below = float::is_negative(v.first - c.pressure);
    let to_vapor = float::abs(c.start - vapor);
    let to_liquid = float::abs(c.start - liquid);
    let beyond_liquid = float::min(liquid * 1.1, c.maxdensity);
    match way {
        Both::BelowConvex => {
            if !below && to_vapor < to_liquid {
                0.8 * vapor
            } else {
                beyond_liquid
            }
        }
        Both::AboveConcave => {
            if below && to_vapor > to_liquid {
                beyond_liquid
            } else {
                0.8 * vapor
            }
        }
    }
}

fn by_nearest(blend: Blend, c: Conditions, way: Nearest) -> Ran
    ensures { result ≡ run finite_of (evaluated blend) 0 (detour_tree c (Detour.ByNearest way)) }
{
    let s = spinodal_search(blend, c.maxdensity, c.temperature, c.start);
    Ran {
        answer: s.answer.and_then(|sp| after_nearest(c, way, sp)),
        ..s
    }
}

// the vapour's spinodal, after the liquid's
fn by_vapor(blend: Blend, c: Conditions, way: Both, liquid: f64) -> Ran
    ensures { result ≡ run finite_of (evaluated blend) 0 (vapor_tree c way liquid) }
{
    let s = branch_search(blend, c.maxdensity, c.temperature, Branch::Vapor);
    Ran {
        answer: s
            .answer
            .and_then(|v| found_density(after_both(c, way, liquid, v))),
        ..s
    }
}

fn by_both(blend: Blend, c: Conditions, way: Both) -> Ran
    ensures { result ≡ run finite_of (evaluated blend) 0 (detour_tree c (Detour.ByBoth way)) }
{
    branch_search(blend, c.maxdensity, c.temperature, Branch::Liquid).and_then(|liquid| by_vapor(
        blend,
        c,
        way,
        liquid.second,
    ))
}

fn detour(blend: Blend, c: Conditions, way: Detour) -> Ran
    ensures { result ≡ run finite_of (evaluated blend) 0 (detour_tree c way) }
{
    match way {
        Detour::ByNearest(nearest) => by_nearest(blend, c, nearest),
        Detour::ByBoth(both) => by_both(blend, c, both),
    }
}

// correction for instable region
fn unstable(blend: Blend, c: Conditions, rho: f64, error: f64) -> Ran
    ensures { result ≡ run finite_of (evaluated blend) 0 (unstable_tree c rho error) }
{
    let y = evaluations::p_dpdrho_d2pdrho2(blend, c.temperature, rho);
    if all_finite(y) {
        let d = detour(blend, c, detour_of(c.maxdensity, rho, error, y.d2p_drho2));
        Ran {
            evaluations: 1 + d.evaluations,
            ..d
        }
    } else {
        Ran {
            answer: Err(Refusal::NotFinite),
            evaluations: 1,
        }
    }
}

// The rounds after the first evaluation, from `start` on. Not solver::rounds: a round may take a detour, with up to 61 evaluations more.
fn iterate(blend: Blend, c: Conditions, rounds: u64, start: f64) -> Ran
    requires { rounds ≤ 50 }
    ensures { result ≡ run finite_of (evaluated blend) 1 (density_from c rounds start) }
{
    let mut rho = start;
    let mut evaluations = 1;
    for made in 0..rounds {
        evaluations += 1;
        let y = evaluations::p_dpdrho(blend, c.temperature, rho);
        rho = match slope_round(c, rho, y) {
            SlopeOutcome::NotFinite => {
                return Ran {
                    answer: Err(Refusal::NotFinite),
                    evaluations,
                };
            }
            SlopeOutcome::Converged(found) => {
                return Ran {
                    answer: found_density(found),
                    evaluations,
                };
            }
            SlopeOutcome::Next(next) => next,
            SlopeOutcome::Unstable(error) => {
                let d = unstable(blend, c, rho, error);
                evaluations += d.evaluations;
                match d.answer {
                    Ok(next) => next.first,
                    Err(_) => return Ran { evaluations, ..d },
                }
            }
        };
    }
    Ran {
        answer: Err(Refusal::NotConverged),
        evaluations,
    }
}

pub fn density_search(blend: Blend, c: Conditions) -> Ran
    ensures { result ≡ run finite_of (evaluated blend) 0 (density_search c) }
{
    let start = c.start;
    if start <= 0.0 {
        return Ran {
            answer: Err(Refusal::StartNotPositive),
            evaluations: 0,
        };
    }
    let y = evaluations::p_dpdrho(blend, c.temperature, start);
    match slope_round(c, start, y) {
        SlopeOutcome::NotFinite => Ran {
            answer: Err(Refusal::NotFinite),
            evaluations: 1,
        },
        SlopeOutcome::Converged(found) => Ran {
            answer: found_density(found),
            evaluations: 1,
        },
        SlopeOutcome::Next(next) => iterate(blend, c, 49, next),
        SlopeOutcome::Unstable(_) => iterate(blend, c, 50, correct(c)),
    }
}

// kind 1 with the maximum density at hand
#[tactic(auto, unfolding(crate::specs::Density::density_iteration))]
pub fn iteration(
    blend: Blend,
    maxdensity: f64,
    temperature: f64,
    pressure: f64,
    initial: DensityInitialization,
) -> Ran
    ensures { result ≡ run finite_of (evaluated blend) 0 (density_iteration maxdensity temperature pressure initial) }
{
    let c = conditions(maxdensity, temperature, pressure, initial);
    density_search(blend, c)
}

// Kind 1. Hands out the density.
pub fn density_iteration(
    blend: Blend,
    temperature: f64,
    pressure: f64,
    initial: DensityInitialization,
) -> Ran
    ensures { result ≡ run finite_of (evaluated blend) 0 (density_iteration (max_density blend) temperature pressure initial) }
{
    let maxdensity = eos::compute_max_density(blend);
    iteration(blend, maxdensity, temperature, pressure, initial)
}
