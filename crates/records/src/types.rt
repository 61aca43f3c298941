// How a job ends, and what a caller is told.
ghost use Rattle.std.specs.Prelude.{◌≡◌};
ghost use Rattle.records.specs.Answered.{refusal_number};

use solver::Values;

// What the sealed part of a record states.
#[derive(Clone, Copy)]
pub struct Outcome {
    pub status: u64,
    pub values: Values,
    pub evaluations: u64,
}

// Why `answer` writes nothing. In `From` is document 01's number for each.
#[derive(Clone, Copy, Debug, PartialEq, Eq)]
pub enum Unanswered {
    BadKind,
    BadCount,
    BadBlockLength,
    ShortRecord,
}

impl From<Unanswered> for u64 {
    ghost from_gives = { λ refusal number. number ≡ refusal_number refusal };

    #[tactic(auto, unfolding(crate::specs::Answered::refusal_number))]
    fn from(refusal: Unanswered) -> u64 {
        match refusal {
            Unanswered::BadKind => 2,
            Unanswered::BadCount => 3,
            Unanswered::BadBlockLength => 8,
            Unanswered::ShortRecord => 5,
        }
    }
}
