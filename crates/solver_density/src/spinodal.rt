// _pressure_spinodal and _pressure_spinodal_branch of density_iteration.rs.
ghost use Rattle.std.specs.Prelude.{◌≡◌};
ghost use Rattle.float.specs.Sign.{finite_of};
ghost use Rattle.eos.specs.Cubic.{max_density};
ghost use Rattle.solver.specs.Search.{run};
ghost use Rattle.solver.specs.Evaluated.{evaluated};
ghost use Rattle.solver_density.specs.Spinodal.{capped, spinodal_step, spinodal_outcome, branch_start, on_branch, branch_answer, pressure_spinodal, pressure_spinodal_branch};
ghost use Rattle.solver_density.specs.Rounds.{finite3, tested_outcome, spinodal_round};

use crate::types::Branch;
use eos::Blend;
use evaluations::Pressure;
use solver::{Answer, Progress, Ran, Refusal, Values};
use std::ops::ControlFlow;

// `delta`, kept within `most` in size
#[tactic(auto, unfolding(crate::specs::Spinodal::capped))]
pub fn cap(most: f64, delta: f64) -> f64
    ensures { result ≡ capped most delta }
{
    if float::abs(delta) > most {
        most * float::signum(delta)
    } else {
        delta
    }
}

#[tactic(auto, unfolding(crate::specs::Spinodal::spinodal_step))]
fn spinodal_step(maxdensity: f64, rho: f64, delta: f64) -> f64
    ensures { result ≡ spinodal_step maxdensity rho delta }
{
    let delta_rho = float::max(cap(0.05 * maxdensity, delta), -rho * 0.95);
    rho + float::min(delta_rho, maxdensity - rho)
}

#[tactic(auto, unfolding(crate::specs::Spinodal::spinodal_outcome))]
fn spinodal_outcome(maxdensity: f64, rho: f64, y: Pressure) -> Progress<f64>
    ensures { result ≡ spinodal_outcome maxdensity rho y }
{
    let dpdrho = y.dp_drho;
    let d2pdrho2 = y.d2p_drho2;
    if float::abs(dpdrho) < 1e-8 {
        let found = Values {
            first: y.p,
            second: rho,
            third: d2pdrho2,
        };
        return ControlFlow::Break(Ok(found));
    }
    let delta_rho = -dpdrho / d2pdrho2;
    if float::is_finite(delta_rho) {
        ControlFlow::Continue(spinodal_step(maxdensity, rho, delta_rho))
    } else {
        ControlFlow::Break(Err(Refusal::NotConverged))
    }
}

#[tactic(auto, unfolding(crate::specs::Rounds::tested_outcome))]
fn tested_outcome(outcome: Progress<f64>) -> Progress<f64>
    ensures { result ≡ tested_outcome outcome }
{
    let rho = outcome?;
    if float::is_finite(rho) {
        ControlFlow::Continue(rho)
    } else {
        ControlFlow::Break(Err(Refusal::NotFinite))
    }
}

// what p_dpdrho_d2pdrho2 yields is finite
#[tactic(auto, unfolding(crate::specs::Rounds::finite3))]
pub fn all_finite(y: Pressure) -> bool
    ensures { result ≡ finite3 y }
{
    float::is_finite(y.p) && float::is_finite(y.dp_drho) && float::is_finite(y.d2p_drho2)
}

// a round at rho, with its tests for 27
#[tactic(auto, unfolding(crate::specs::Rounds::spinodal_round))]
pub fn spinodal_round(maxdensity: f64, rho: f64, y: Pressure) -> Progress<f64>
    ensures { result ≡ spinodal_round maxdensity rho y }
{
    if all_finite(y) {
        tested_outcome(spinodal_outcome(maxdensity, rho, y))
    } else {
        ControlFlow::Break(Err(Refusal::NotFinite))
    }
}

pub fn spinodal_search(blend: Blend, maxdensity: f64, temperature: f64, start: f64) -> Ran
    ensures { result ≡ run finite_of (evaluated blend) 0 (pressure_spinodal maxdensity temperature start) }
{
    if start <= 0.0 {
        return Ran {
            answer: Err(Refusal::StartNotPositive),
            evaluations: 0,
        };
    }
    solver::rounds(30, Refusal::NotConverged, start, |rho| {
        let y = evaluations::p_dpdrho_d2pdrho2(blend, temperature, rho);
        spinodal_round(maxdensity, rho, y)
    })
}

#[tactic(auto, unfolding(crate::specs::Spinodal::branch_start))]
pub fn branch_start(maxdensity: f64, branch: Branch) -> f64
    ensures { result ≡ branch_start maxdensity branch }
{
    match branch {
        Branch::Liquid => 0.8 * maxdensity,
        Branch::Vapor => 0.001 * maxdensity,
    }
}

#[tactic(auto, unfolding(crate::specs::Spinodal::on_branch))]
fn on_branch(branch: Branch, curvature: f64) -> bool
    ensures { result ≡ on_branch branch curvature }
{
    match branch {
        Branch::Liquid => curvature > 0.0,
        Branch::Vapor => curvature < 0.0,
    }
}

#[tactic(auto, unfolding(crate::specs::Spinodal::branch_answer))]
pub fn branch_answer(branch: Branch, found: Values) -> Answer
    ensures { result ≡ branch_answer branch found }
{
    if on_branch(branch, found.third) {
        Ok(Values {
            third: 0.0,
            ..found
        })
    } else {
        Err(Refusal::WrongBranch)
    }
}

pub fn branch_search(blend: Blend, maxdensity: f64, temperature: f64, branch: Branch) -> Ran
    ensures { result ≡ run finite_of (evaluated blend) 0 (pressure_spinodal_branch maxdensity temperature branch) }
{
    let start = branch_start(maxdensity, branch);
    let s = spinodal_search(blend, maxdensity, temperature, start);
    Ran {
        answer: s.answer.and_then(|found| branch_answer(branch, found)),
        ..s
    }
}

// Kind 3. Hands out pressure, density and curvature.
pub fn pressure_spinodal(blend: Blend, temperature: f64, start: f64) -> Ran
    ensures { result ≡ run finite_of (evaluated blend) 0 (pressure_spinodal (max_density blend) temperature start) }
{
    spinodal_search(blend, eos::compute_max_density(blend), temperature, start)
}

// Kind 4. Hands out pressure and density.
pub fn pressure_spinodal_branch(blend: Blend, temperature: f64, branch: Branch) -> Ran
    ensures { result ≡ run finite_of (evaluated blend) 0 (pressure_spinodal_branch (max_density blend) temperature branch) }
{
    branch_search(blend, eos::compute_max_density(blend), temperature, branch)
}
