// When a job would come out, from public fields alone.
ghost use Rattle.std.specs.Prelude.{◌≡◌, ◌≤◌};
ghost use Rattle.schedule.specs.Schedule.{away as away_of, turns_until};

use crate::spans::span_of;

// The accepted turns before the next one that serves the queue.
#[tactic(auto, unfolding(crate::specs::Schedule::away))]
fn away(turn: u64, queue: u64) -> u64
    requires { (turn ≤ 3) × (queue ≤ 3) }
    ensures { (result ≡ away_of turn queue) × (result ≤ 3) }
{
    if turn <= queue {
        return queue - turn;
    }
    queue + 4 - turn
}

// The accepted turns until a job of this kind, submitted now to a queue that its jobs still need so many turns of, is handed out, that turn counted.
#[tactic(auto, using(crate::proofs::Tests::span_within), unfolding(crate::specs::Schedule::turns_until))]
pub fn turns_until(turn: u64, queue: u64, turns: u64, kind: u64) -> u64
    requires { (turn ≤ 3) × (queue ≤ 3) × (turns ≤ 49632) }
    ensures { result ≡ turns_until turn queue turns kind }
{
    let before = away(turn, queue);
    let span = span_of(kind);
    before + 4 * (turns + span - 1) + 1
}
