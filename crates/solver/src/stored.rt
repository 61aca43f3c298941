// Answers and places of a search as the numbers that a board stores, and back.
ghost use Rattle.std.specs.Prelude.{◌≡◌};
ghost use Rattle.solver.specs.Stored.{refusal_by, answer_by, ended_numbers, status_fits, rounds_of, counters_below, in_ranges};

use crate::answer::{status, values};
use crate::types::{Answer, Counters, Numbers, Refusal};

impl From<u64> for Refusal {
    ghost from_gives = { λ number refusal. refusal ≡ refusal_by number };

    #[tactic(auto, unfolding(crate::specs::Stored::refusal_by))]
    fn from(number: u64) -> Refusal {
        match number {
            21 => Refusal::StartNotPositive,
            22 => Refusal::NotConverged,
            23 => Refusal::IterationFailed,
            24 => Refusal::BothPhasesFailed,
            25 => Refusal::WrongBranch,
            26 => Refusal::Supercritical,
            _ => Refusal::NotFinite,
        }
    }
}

// what was found, or why it was not, by its status
#[tactic(auto, unfolding(crate::specs::Stored::answer_by))]
pub fn answer_by<T: Copy>(status: u64, found: T) -> Result<T, Refusal>
    ensures { result ≡ answer_by status found }
{
    match status {
        0 => Ok(found),
        _ => Err(Refusal::from(status)),
    }
}

// an end as numbers
#[tactic(auto, unfolding(crate::specs::Stored::ended_numbers))]
pub fn ended_numbers(answer: Answer) -> Numbers
    ensures { result ≡ ended_numbers answer }
{
    Numbers {
        counters: Counters {
            status: status(answer),
            ..Counters::default()
        },
        values: values(answer),
    }
}

#[tactic(auto, unfolding(crate::specs::Stored::status_fits))]
fn status_fits(status: u64) -> bool
    ensures { result ≡ status_fits status }
{
    status == 0 || (21..28).contains(&status)
}

#[tactic(auto, unfolding(crate::specs::Stored::rounds_of))]
fn rounds_of(kind: u64) -> u64
    ensures { result ≡ rounds_of kind }
{
    match kind {
        8 | 9 => 200,
        _ => 50,
    }
}

// each counter is within its range, and fewer than this many rounds are left
#[tactic(auto, unfolding(crate::specs::Stored::counters_below))]
fn counters_below(rounds: u64, counters: Counters) -> bool
    ensures { result ≡ counters_below rounds counters }
{
    counters.stage < 5
        && counters.tag < 7
        && status_fits(counters.status)
        && counters.left < 50
        && counters.way < 4
        && counters.rounds < rounds
}

// each counter is within its range for a search of the kind
pub fn in_ranges(kind: u64, counters: Counters) -> bool
    ensures { result ≡ in_ranges kind counters }
{
    counters_below(rounds_of(kind), counters)
}
