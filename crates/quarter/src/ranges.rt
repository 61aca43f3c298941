// The test behind 6: every stored number of a quarter is in its range.
ghost use Rattle.std.specs.Prelude.{◌≡◌, ◌<◌, ◌≤◌};
ghost use Rattle.board_spec.specs.Quarter.{slot_fits, slots_fit, running_fits, quarter_fits};

use crate::bytes::Quarter;
use crate::jobs::{first_kind, first_ticket};
use crate::state::load_counters;

// N is read byte by byte, which the compiler makes one load of in the end: with a load from the start it turns the tests of kind and N into
// flags, some 20 ns more for the 32 slots of a board.
#[tactic(auto, unfolding(board_spec::specs::Quarter::slot_fits))]
fn slot_fits(q: &Quarter, slot: usize) -> bool
    requires { slot < 8 }
    ensures { result ≡ slot_fits q.now slot }
{
    let kind = buf::get_u64(q, 128 + 16 * slot);
    schedule::kind_fits(kind) && schedule::count_fits(kind, buf::get_num(q, 136 + 16 * slot, 8))
}

// The slots of so many jobs from this ticket on, one after another.
fn each_slot_fits(q: &Quarter, ticket: u64, count: u64) -> bool
    requires { count ≤ 8 }
    ensures { result ≡ slots_fit q.now ticket count }
{
    let first = ticket % 8;
    for i in 0..count {
        if !slot_fits(q, ((first + i) % 8) as usize) {
            return false;
        }
    }
    true
}

// The same. All eight slots are tried first, also those of jobs that have left: a loop of eight without a start is made straight
// code, and each call tests the slots of four queues.
#[tactic(auto, using(crate::proofs::QuarterLaws::eight_slots))]
fn slots_fit(q: &Quarter, ticket: u64, count: u64) -> bool
    requires { count ≤ 8 }
    ensures { result ≡ slots_fit q.now ticket count }
{
    each_slot_fits(q, 0, 8) || each_slot_fits(q, ticket, count)
}

// The running search, where the first job has had a turn.
#[tactic(auto, unfolding(board_spec::specs::Quarter::running_fits, board_spec::specs::Quarter::load_state, stepping::specs::Stepping::state_fits))]
fn running_fits(q: &Quarter) -> bool
    ensures { result ≡ running_fits q.now }
{
    let kind = first_kind(q);
    1 <= buf::get_u64(q, 8)
        && buf::get_u64(q, 16) < schedule::span_of(kind)
        && stepping::counters_fit(kind, load_counters(q))
}

#[tactic(auto, unfolding(board_spec::specs::Quarter::quarter_fits))]
pub fn quarter_fits(q: &Quarter) -> bool
    ensures { result ≡ quarter_fits q.now }
{
    let held = buf::get_u64(q, 8);
    held <= 8
        && slots_fit(q, first_ticket(q), held)
        && (buf::get_u64(q, 16) == 0 || running_fits(q))
}
