// How a job ends: refused by its data, or with the end of its search.
ghost use Rattle.std.specs.Prelude.{◌≡◌};
ghost use Rattle.records.specs.Outcome.{refused_end, search_end, outcome_of};

use crate::types::Outcome;
use reader::{Job, Task};
use solver::{Ran, Values};

// How a job ends that this number refuses, be it one that a check gives or not.
#[tactic(auto, unfolding(crate::specs::Outcome::refused_end))]
pub fn refused(number: u64) -> Outcome
    ensures { result ≡ refused_end number }
{
    let values = Values {
        first: 0.0,
        second: 0.0,
        third: 0.0,
    };
    Outcome {
        status: number,
        values,
        evaluations: 0,
    }
}

impl From<Ran> for Outcome {
    ghost from_gives = { λ ran outcome. outcome ≡ search_end ran };

    #[tactic(auto, unfolding(crate::specs::Outcome::search_end))]
    fn from(ran: Ran) -> Outcome {
        Outcome {
            status: solver::status(ran.answer),
            values: solver::values(ran.answer),
            evaluations: ran.evaluations,
        }
    }
}

// Runs the job's search to its end.
#[tactic(auto, unfolding(crate::specs::Outcome::outcome_of, crate::specs::Outcome::course_of, crate::specs::Outcome::end_of))]
pub fn run_job(job: Job) -> Outcome
    ensures { result ≡ outcome_of job }
{
    let blend = job.blend;
    let task = match job.task {
        Ok(task) => task,
        Err(refusal) => return refused(u64::from(refusal)),
    };
    match task {
        Task::DensityIteration(temperature, pressure, initial) => {
            Outcome::from(solver_density::density_iteration(blend, temperature, pressure, initial))
        }
        Task::DensityIterationStable(temperature, pressure) => {
            Outcome::from(solver_density::density_iteration_stable(blend, temperature, pressure))
        }
        Task::PressureSpinodal(temperature, start) => {
            Outcome::from(solver_density::pressure_spinodal(blend, temperature, start))
        }
        Task::PressureSpinodalBranch(temperature, branch) => {
            Outcome::from(solver_density::pressure_spinodal_branch(blend, temperature, branch))
        }
        Task::CriticalPoint(temperature, density) => {
            Outcome::from(solver_critical::critical_point(blend, temperature, density))
        }
        Task::Spinodal(temperature) => Outcome::from(solver_critical::spinodal(blend, temperature)),
        Task::CriticalPointBinaryT(temperature, density) => {
            Outcome::from(solver_binary::critical_point_binary_t(blend, temperature, density))
        }
        Task::CriticalPointBinaryP(pressure, temperature, density) => {
            Outcome::from(solver_binary::critical_point_binary_p(
                blend,
                pressure,
                temperature,
                density,
            ))
        }
    }
}
