// What a job does turn by turn, and how it stands at its end.
use reader::Refusal;
use solver::Values;

// The search that a job makes, or what it is refused by.
pub type Work = Result<solver_state::Job, Refusal>;

// How a job ended: the status and the floats of its record.
#[derive(Clone, Copy, PartialEq)]
pub struct Ended {
    pub status: u64,
    pub values: Values,
}
