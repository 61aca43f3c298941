// What the calls answer, and why they refuse.
ghost use Rattle.std.specs.Prelude.{◌≡◌, true, false, MatchResult};
ghost use Rattle.board.specs.Answers.{refusal_number};

#[derive(Clone, Copy, Debug, PartialEq, Eq)]
pub enum Refusal {
    BadQueue,
    BadKind,
    BadCount,
    Full,
    ShortRecord,
    BadBoard,
    NotRunning,
    BadBlockLength,
}

// Document 01's numbers: the one place of the code that has them.
impl From<Refusal> for u64 {
    ghost from_gives = { λ refusal number. number ≡ refusal_number refusal };

    #[tactic(auto, unfolding(crate::specs::Answers::refusal_number))]
    fn from(refusal: Refusal) -> u64 {
        match refusal {
            Refusal::BadQueue => 1,
            Refusal::BadKind => 2,
            Refusal::BadCount => 3,
            Refusal::Full => 4,
            Refusal::ShortRecord => 5,
            Refusal::BadBoard => 6,
            Refusal::NotRunning => 7,
            Refusal::BadBlockLength => 8,
        }
    }
}

// A test of a call.
pub fn check(holds: bool, refusal: Refusal) -> Result<(), Refusal>
    ensures { MatchResult result (λ _. holds ≡ true) (λ e. (holds ≡ false) × (e ≡ refusal)) }
{
    if holds { Ok(()) } else { Err(refusal) }
}

// What a look shows of the running job: its evaluations so far, and the density of the latest one.
#[derive(Clone, Copy)]
pub struct Shown {
    pub evaluations: u64,
    pub density: f64,
}

// The answer of any call.
#[derive(Clone, Copy)]
pub enum Reply {
    Ticket(u64),
    // whether a record was written
    Turned(bool),
    Shown(Shown),
    // accepted turns
    Quoted(u64),
}
