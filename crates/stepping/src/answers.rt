// A whole job answered by steps: its start, then as many steps as its kind's span. The same bytes as `records::answer`.
ghost use Rattle.std.specs.Prelude.{◌≡◌};
ghost use Rattle.records.specs.Answered.{answered};
ghost use Rattle.stepping.specs.States.{state_after, outcome_at};

use crate::jobs::{result, start, step};
use reader::Job;
use records::{Outcome, Unanswered};
use solver_state::State;

// The state of a job after this many turns.
pub fn after(job: Job, turns: u64) -> State
    ensures { result ≡ state_after job turns }
{
    let mut state = start(job);
    for _ in 0..turns {
        state = step(job, state);
    }
    state
}

// What the record states of a state.
#[tactic(auto, unfolding(crate::specs::States::outcome_at))]
pub fn outcome(state: State) -> Outcome
    ensures { result ≡ outcome_at state }
{
    let ended = result(state);
    let values = ended.values;
    Outcome {
        status: ended.status,
        values,
        evaluations: state.evaluations,
    }
}

// Makes a request's job step by step to its span and writes the sealed part of the record, bytes 16 to 63. A refusal changes nothing.
pub fn answer(kind: u64, n: u64, block: &[u8], record: &mut [u8]) -> Result<(), Unanswered>
    ensures { (result ≡ (answered kind n block.now «record».old).answer) × («record».new ≡ (answered kind n block.now «record».old).bytes) }
{
    records::fits(kind, n, block, record)?;
    let job = reader::view(kind, n, block);
    let state = after(job, schedule::span_of(kind));
    records::write_sealed(record, outcome(state));
    Ok(())
}
