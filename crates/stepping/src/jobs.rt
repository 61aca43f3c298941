// A job of a request block: its first state, one evaluation further, the range of a stored state, and its end.
ghost use Rattle.std.specs.Prelude.{◌≡◌, unwrap_or};
ghost use Rattle.reader.specs.View.{view};
ghost use Rattle.solver.specs.Evaluated.{evaluated};
ghost use Rattle.stepping.specs.Stepping.{task_search, work_of, refused_state, start_by, start_of, step_by, step_of, at_end, data_refusal, counters_fit, result_of};

use crate::types::{Ended, Work};
use eos::Blend;
use reader::{Job, Refusal, Task, of_data};
use solver::{Counters, Numbers, Values};
use solver_state::State;

#[tactic(auto, unfolding(crate::specs::Stepping::task_search))]
fn search(blend: Blend, task: Task) -> solver_state::Job
    ensures { result ≡ task_search blend task }
{
    let maxdensity = eos::compute_max_density(blend);
    let z0 = blend.x[0];
    let z1 = blend.x[1];
    match task {
        Task::DensityIteration(temperature, pressure, initial) => {
            let c = solver_density::conditions(maxdensity, temperature, pressure, initial);
            solver_state::Job::Density(c)
        }
        Task::DensityIterationStable(temperature, pressure) => solver_state::Job::StableDensity {
            maxdensity,
            temperature,
            pressure,
        },
        Task::PressureSpinodal(temperature, start) => solver_state::Job::PressureSpinodal {
            maxdensity,
            temperature,
            start,
        },
        Task::PressureSpinodalBranch(temperature, branch) => solver_state::Job::BranchSpinodal {
            maxdensity,
            temperature,
            branch,
        },
        Task::CriticalPoint(temperature, density) => solver_state::Job::CriticalPoint {
            maxdensity,
            temperature,
            density,
        },
        Task::Spinodal(temperature) => solver_state::Job::StabilitySpinodals {
            maxdensity,
            temperature,
        },
        Task::CriticalPointBinaryT(temperature, density) =>
            solver_state::Job::CriticalPointBinaryT {
                maxdensity,
                z0,
                z1,
                temperature,
                density,
            },
        Task::CriticalPointBinaryP(pressure, temperature, density) =>
            solver_state::Job::CriticalPointBinaryP {
                maxdensity,
                z0,
                z1,
                pressure,
                temperature,
                density,
            },
    }
}

#[tactic(auto, unfolding(crate::specs::Stepping::work_of))]
fn work(blend: Blend, task: Result<Task, Refusal>) -> Work
    ensures { result ≡ work_of blend task }
{
    match task {
        Ok(task) => Ok(search(blend, task)),
        Err(refusal) => Err(refusal),
    }
}

// The state of a job that this number refuses, be it one that a check gives or not: it is at its end.
#[tactic(auto, unfolding(crate::specs::Stepping::refused_state))]
pub fn refused(number: u64) -> State
    ensures { result ≡ refused_state number }
{
    let counters = Counters {
        status: number,
        ..Counters::default()
    };
    State {
        numbers: Numbers {
            counters,
            values: Values::default(),
        },
        evaluations: 0,
        latest: 0.0,
    }
}

#[tactic(auto, unfolding(crate::specs::Stepping::start_by))]
fn start_by(work: Work) -> State
    ensures { result ≡ start_by work }
{
    match work {
        Ok(job) => solver_state::start(job),
        Err(refusal) => refused(u64::from(refusal)),
    }
}

// A job before its first evaluation.
#[tactic(auto, unfolding(crate::specs::Stepping::start_of))]
pub fn start(job: Job) -> State
    ensures { result ≡ start_of job }
{
    let blend = job.blend;
    let task = job.task;
    start_by(work(blend, task))
}

#[tactic(auto, unfolding(crate::specs::Stepping::step_by))]
fn step_by(blend: Blend, work: Work, state: State) -> State
    ensures { result ≡ step_by (evaluated blend) work state }
{
    match work {
        Err(_) => state,
        Ok(job) => {
            // counted from 0 and added afterwards: a stored count may be any number of eight bytes
            let numbers = state.numbers;
            let uncounted = State {
                numbers,
                evaluations: 0,
                latest: state.latest,
            };
            let next = solver_state::step(blend, job, uncounted);
            let stepped = next.numbers;
            State {
                numbers: stepped,
                evaluations: std::num::wrapping_add_u64(state.evaluations, next.evaluations),
                latest: next.latest,
            }
        }
    }
}

// One evaluation further, or the same state at an end.
#[tactic(auto, unfolding(crate::specs::Stepping::step_of))]
pub fn step(job: Job, state: State) -> State
    ensures { result ≡ step_of job state }
{
    let blend = job.blend;
    let task = job.task;
    step_by(blend, work(blend, task), state)
}

// The state that a job goes on from: the stored one, or its first where it has not begun and none is stored.
fn state_of(work: Work, stored: Option<State>) -> State
    ensures { result ≡ unwrap_or stored (start_by work) }
{
    stored.unwrap_or_else(|| start_by(work))
}

// A step of a request's job, whose blend is made of its block in place and not handed through a `Job`.
pub fn step_request(kind: u64, n: u64, block: &[u8], stored: Option<State>) -> State
    ensures { result ≡ step_of (view kind n block.now) (unwrap_or stored (start_of (view kind n block.now))) }
{
    let mut blend = block::empty();
    let task = reader::read(kind, n, block, &mut blend);
    let work = work(blend, task);
    step_by(blend, work, state_of(work, stored))
}

// Whether a search has ended, so that no step leads on.
#[tactic(auto, unfolding(crate::specs::Stepping::at_end))]
pub fn at_end(counters: Counters) -> bool
    ensures { result ≡ at_end counters }
{
    counters.stage == 0 && counters.tag == 0
}

#[tactic(auto, unfolding(crate::specs::Stepping::data_refusal))]
fn data_refusal(counters: Counters) -> bool
    ensures { result ≡ data_refusal counters }
{
    at_end(counters)
        && counters.left == 0
        && counters.way == 0
        && counters.rounds == 0
        && of_data(counters.status)
}

// Whether stored counters are in their ranges: those of the kind's search, or a data refusal's.
pub fn counters_fit(kind: u64, counters: Counters) -> bool
    ensures { result ≡ counters_fit kind counters }
{
    solver::in_ranges(kind, counters) || data_refusal(counters)
}

// How a job ended.
#[tactic(auto, unfolding(crate::specs::Stepping::result_of))]
pub fn result(state: State) -> Ended
    ensures { result ≡ result_of state }
{
    let numbers = state.numbers;
    let counters = numbers.counters;
    if at_end(counters) {
        return Ended {
            status: counters.status,
            values: numbers.values,
        };
    }
    Ended {
        status: 22,
        values: Values::default(),
    }
}
