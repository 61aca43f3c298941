// Kinds 3 and 4 one evaluation at a time.
ghost use Rattle.std.specs.Prelude.{◌≡◌};
ghost use Rattle.solver.specs.Evaluated.{evaluated};
ghost use Rattle.solver_step.specs.SpinodalStep.{spinodal_on, spinodal_start, spinodal_next, branch_place, branch_begin, branch_next};

use crate::types::SpinodalSpot;
use eos::Blend;
use solver::{Progress, Refusal};
use solver_density::Branch;
use std::ops::ControlFlow;

// where a search from rho begins
#[tactic(auto, unfolding(crate::specs::SpinodalStep::spinodal_start))]
pub fn spinodal_start(rho: f64) -> Progress<SpinodalSpot>
    ensures { result ≡ spinodal_start rho }
{
    if rho <= 0.0 {
        ControlFlow::Break(Err(Refusal::StartNotPositive))
    } else {
        ControlFlow::Continue(SpinodalSpot {
            rounds: 29,
            at: rho,
        })
    }
}

// the one evaluation at a spot, and where it leads
#[tactic(auto, unfolding(crate::specs::SpinodalStep::spinodal_next, solver::specs::Evaluated::evaluated))]
pub fn spinodal_next(
    blend: Blend,
    maxdensity: f64,
    t: f64,
    spot: SpinodalSpot,
) -> Progress<SpinodalSpot>
    ensures { result ≡ spinodal_next maxdensity t (evaluated blend) spot }
{
    let rho = spot.at;
    let y = evaluations::p_dpdrho_d2pdrho2(blend, t, rho);
    solver::onward(
        spot.rounds,
        Refusal::NotConverged,
        solver_density::spinodal_round(maxdensity, rho, y),
    )
}

// the branch's answer at the end of the spinodal's search
#[tactic(auto, unfolding(crate::specs::SpinodalStep::branch_place))]
fn branch_place(branch: Branch, place: Progress<SpinodalSpot>) -> Progress<SpinodalSpot>
    ensures { result ≡ branch_place branch place }
{
    place.map_break(|answer| answer.and_then(|found| solver_density::branch_answer(branch, found)))
}

#[tactic(auto, unfolding(crate::specs::SpinodalStep::branch_begin))]
pub fn branch_begin(maxdensity: f64, branch: Branch) -> Progress<SpinodalSpot>
    ensures { result ≡ branch_begin maxdensity branch }
{
    branch_place(
        branch,
        spinodal_start(solver_density::branch_start(maxdensity, branch)),
    )
}

#[tactic(auto, unfolding(crate::specs::SpinodalStep::branch_next))]
pub fn branch_next(
    blend: Blend,
    maxdensity: f64,
    t: f64,
    branch: Branch,
    spot: SpinodalSpot,
) -> Progress<SpinodalSpot>
    ensures { result ≡ branch_next maxdensity t branch (evaluated blend) spot }
{
    branch_place(branch, spinodal_next(blend, maxdensity, t, spot))
}
