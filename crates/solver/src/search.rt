// Searches that go round by round: to their end, one round on, and a part followed by the rest.
ghost use Rattle.std.specs.Prelude.{◌≡◌, ◌+◌, ◌<◌};
ghost use Rattle.solver.specs.Rounds.{onward, RunsRounds, Follows};

use crate::types::{Answer, Progress, Ran, Refusal, Spot, Values};
use std::ops::ControlFlow;

// Where a round leads, `rounds` being left after it. `exhausted` is the refusal where none is.
pub fn onward<S: Copy>(rounds: u64, exhausted: Refusal, outcome: Progress<S>) -> Progress<Spot<S>>
    ensures { result ≡ onward rounds exhausted outcome }
{
    let at = outcome?;
    match rounds.checked_sub(1) {
        Some(rounds) => ControlFlow::Continue(Spot { rounds, at }),
        None => ControlFlow::Break(Err(exhausted)),
    }
}

// At most `count` rounds from `start` on, of one evaluation each. `exhausted` is the refusal after them.
pub fn rounds<S: Copy, F: Fn(S) -> Progress<S>>(
    count: u64,
    exhausted: Refusal,
    start: S,
    round: F,
) -> Ran
    requires { F.IsAlwaysCallable round }
    ensures { RunsRounds (F.post round) exhausted 0 count start result }
{
    let mut at = start;
    for made in 0..count {
        match round(at) {
            ControlFlow::Break(answer) => {
                return Ran {
                    answer,
                    evaluations: made + 1,
                };
            }
            ControlFlow::Continue(next) => at = next,
        }
    }
    Ran {
        answer: Err(exhausted),
        evaluations: count,
    }
}

impl Ran {
    // The rest of a search after this part, going on from what was found. A refusal is the answer.
    pub fn and_then<F: FnOnce(Values) -> Ran>(self, rest: F) -> Ran
        requires callable { F.IsAlwaysCallable rest }
        requires fits { (v : Values) (r : Ran) → F.post rest v r → self.evaluations + r.evaluations < 0x1_0000_0000_0000_0000 }
        ensures { Follows (F.post rest) self result }
    {
        match self.answer {
            Ok(found) => {
                let r = rest(found);
                Ran {
                    answer: r.answer,
                    evaluations: self.evaluations + r.evaluations,
                }
            }
            Err(_) => self,
        }
    }
}
