// _density_iteration_stable of density_iteration.rs.
ghost use Rattle.std.specs.Prelude.{◌≡◌};
ghost use Rattle.float.specs.Sign.{finite_of};
ghost use Rattle.eos.specs.Cubic.{max_density};
ghost use Rattle.solver.specs.Search.{run};
ghost use Rattle.solver.specs.Evaluated.{evaluated};
ghost use Rattle.solver_density.specs.Stable.{lower_potential, potentials as potentials_tree, stable_phase, density_iteration_stable};

use crate::density::iteration;
use eos::Blend;
use solver::{Answer, DensityInitialization, Ran, Refusal, Values};

// the phase with the lower potential, the liquid where they are equal
#[tactic(auto, unfolding(crate::specs::Stable::lower_potential))]
pub fn lower_potential(liquid: Values, vapor: Values, of_liquid: f64, of_vapor: f64) -> Answer
    ensures { result ≡ lower_potential liquid vapor of_liquid of_vapor }
{
    if of_liquid > of_vapor {
        Ok(vapor)
    } else {
        Ok(liquid)
    }
}

fn potentials(blend: Blend, temperature: f64, liquid: Values, vapor: Values) -> Ran
    ensures { result ≡ run finite_of (evaluated blend) 0 (potentials_tree temperature liquid vapor) }
{
    let of_liquid = evaluations::chemical_potential(blend, temperature, liquid.first);
    if !float::is_finite(of_liquid) {
        return Ran {
            answer: Err(Refusal::NotFinite),
            evaluations: 1,
        };
    }
    let of_vapor = evaluations::chemical_potential(blend, temperature, vapor.first);
    if !float::is_finite(of_vapor) {
        return Ran {
            answer: Err(Refusal::NotFinite),
            evaluations: 2,
        };
    }
    Ran {
        answer: lower_potential(liquid, vapor, of_liquid, of_vapor),
        evaluations: 2,
    }
}

// both phases searched, each found or failed
#[tactic(auto, unfolding(crate::specs::Stable::stable_phase, solver::specs::Search::run))]
fn stable_phase(blend: Blend, temperature: f64, liquid: Answer, vapor: Answer) -> Ran
    ensures { result ≡ run finite_of (evaluated blend) 0 (stable_phase temperature liquid vapor) }
{
    let answer = match (liquid, vapor) {
        (Ok(l), Ok(v)) => return potentials(blend, temperature, l, v),
        (Ok(l), Err(_)) => Ok(l),
        (Err(_), Ok(v)) => Ok(v),
        (Err(_), Err(_)) => Err(Refusal::BothPhasesFailed),
    };
    Ran {
        answer,
        evaluations: 0,
    }
}

// Kind 2. Hands out the density.
pub fn density_iteration_stable(blend: Blend, temperature: f64, pressure: f64) -> Ran
    ensures { result ≡ run finite_of (evaluated blend) 0 (density_iteration_stable (max_density blend) temperature pressure) }
{
    let maxdensity = eos::compute_max_density(blend);
    let liquid = iteration(
        blend,
        maxdensity,
        temperature,
        pressure,
        DensityInitialization::Liquid,
    );
    if pressure < maxdensity * temperature {
        let vapor = iteration(
            blend,
            maxdensity,
            temperature,
            pressure,
            DensityInitialization::Vapor,
        );
        let stable = stable_phase(blend, temperature, liquid.answer, vapor.answer);
        return Ran {
            evaluations: liquid.evaluations + vapor.evaluations + stable.evaluations,
            ..stable
        };
    }
    liquid
}
