// A turn of a queue: one evaluation of its first job, or none once its search has ended. The job leaves with its record on the
// last turn of its span.
ghost use Rattle.std.specs.Prelude.{◌≡◌, ◌+◌, ◌^◌, ◌<◌, ◌≤◌, true, Some, None, not, ◌&&◌, length, ◌==◌, if◌then◌else◌};
ghost use Rattle.buf.specs.Bytes.{u64_at};
ghost use Rattle.board_spec.specs.Layout.{held_at, turns_at};
ghost use Rattle.stepping.specs.Stepping.{at_end};
ghost use Rattle.board_spec.specs.Quarter.{load_counters, load_state, quarter_fits, stepped_of, kept_quarter, freed_quarter, turn_quarter};

use crate::bytes::Quarter;
use crate::jobs::{first_kind, first_ticket, step_first};
use crate::state::{load_counters, load_state, store_state};
use solver_state::State;

// The stored state, where the first job has had a turn.
fn stored(q: &Quarter) -> Option<State>
    ensures { result ≡ (if u64_at q.now turns_at == 0 then None else Some (load_state q.now)) }
{
    (buf::get_u64(q, 16) != 0).then(|| load_state(q))
}

#[tactic(auto, unfolding(board_spec::specs::Quarter::stepped_of, board_spec::specs::Quarter::state_of))]
fn stepped(q: &Quarter) -> State
    ensures { result ≡ stepped_of q.now }
{
    step_first(q, stored(q))
}

// Whether the first job has had a turn and its search has ended.
fn finished(q: &Quarter) -> bool
    ensures { result ≡ (not (u64_at q.now turns_at == 0) && at_end (load_counters q.now)) }
{
    buf::get_u64(q, 16) != 0 && stepping::at_end(load_counters(q))
}

// The state that the first job is left in where it stays: once its search has ended the stored one, for which its block is not read.
fn kept_state(q: &Quarter) -> State
    ensures { result ≡ stepped_of q.now }
{
    if finished(q) {
        return load_state(q);
    }
    stepped(q)
}

// The job stays, one turn further.
#[tactic(auto, unfolding(board_spec::specs::Quarter::kept_quarter))]
fn keep(q: &mut Quarter)
    requires { u64_at q.old turns_at + 1 < 2 ^ 64 }
    ensures { q.new ≡ kept_quarter q.old }
{
    let state = kept_state(q);
    let turns = buf::get_u64(q, 16);
    buf::put_u64(q, 16, turns + 1);
    store_state(q, state);
}

// The job leaves.
#[tactic(auto, unfolding(board_spec::specs::Quarter::freed_quarter))]
fn free(q: &mut Quarter)
    requires { 1 ≤ u64_at q.old held_at }
    ensures { q.new ≡ freed_quarter q.old }
{
    let held = buf::get_u64(q, 8);
    buf::put_u64(q, 8, held - 1);
    buf::put_u64(q, 16, 0);
}

// Serves the queue once. Whether its first job left, with its record written.
pub fn turn_quarter(queue: u64, q: &mut Quarter, buffer: &mut [u8]) -> bool
    requires { (64 ≤ length buffer.old) × (quarter_fits q.old ≡ true) }
    ensures { ((if result then 1 else 0) ≡ (turn_quarter queue q.old buffer.old).answer) × (q.new ≡ (turn_quarter queue q.old buffer.old).quarter) × (buffer.new ≡ (turn_quarter queue q.old buffer.old).buffer) }
{
    if buf::get_u64(q, 8) == 0 {
        return false;
    }
    let kind = first_kind(q);
    let turns = buf::get_u64(q, 16);
    if turns + 1 == schedule::span_of(kind) {
        let ticket = first_ticket(q);
        let outcome = stepping::outcome(stepped(q));
        records::write_record(buffer, ticket, kind, queue, outcome);
        free(q);
        return true;
    }
    keep(q);
    false
}
