// An answer as document 01's record states it: a status and three floats.
ghost use Rattle.std.specs.Prelude.{◌≡◌};
ghost use Rattle.solver.specs.Answer.{number_of, status_of, values_of};

use crate::types::{Answer, Refusal, Values};

impl From<Refusal> for u64 {
    ghost from_gives = { λ refusal number. number ≡ number_of refusal };

    #[tactic(auto, unfolding(crate::specs::Answer::number_of))]
    fn from(refusal: Refusal) -> u64 {
        match refusal {
            Refusal::StartNotPositive => 21,
            Refusal::NotConverged => 22,
            Refusal::IterationFailed => 23,
            Refusal::BothPhasesFailed => 24,
            Refusal::WrongBranch => 25,
            Refusal::Supercritical => 26,
            Refusal::NotFinite => 27,
        }
    }
}

#[tactic(auto, unfolding(crate::specs::Answer::status_of))]
pub fn status(answer: Answer) -> u64
    ensures { result ≡ status_of answer }
{
    match answer {
        Ok(_) => 0,
        Err(refusal) => u64::from(refusal),
    }
}

#[tactic(auto, unfolding(crate::specs::Answer::values_of))]
pub fn values(answer: Answer) -> Values
    ensures { result ≡ values_of answer }
{
    answer.unwrap_or_default()
}
