// The jobs that a quarter holds: the first one, and one that is added. A job stands in the slot of its ticket modulo 8.
ghost use Rattle.std.specs.Prelude.{◌≡◌, ◌<◌, unwrap_or};
ghost use Rattle.buf.specs.Bytes.{u64_at};
ghost use Rattle.board_spec.specs.Layout.{accepted_at, held_at};
ghost use Rattle.stepping.specs.Stepping.{start_of, step_of};
ghost use Rattle.board_spec.specs.Quarter.{first_ticket, first_slot, first_kind, first_job, put_job, submit_quarter};

use crate::bytes::{Block, Quarter};
use solver_state::State;

// The ticket of the first job: as many below the next one's as jobs are held, modulo 2^64.
pub fn first_ticket(q: &Quarter) -> u64
    ensures { result ≡ first_ticket q.now }
{
    let accepted = buf::get_u64(q, 0);
    let held = buf::get_u64(q, 8);
    std::num::wrapping_sub_u64(accepted, held)
}

fn first_slot(q: &Quarter) -> usize
    ensures { (result ≡ first_slot q.now) × (result < 8) }
{
    (first_ticket(q) % 8) as usize
}

pub fn first_kind(q: &Quarter) -> u64
    ensures { result ≡ first_kind q.now }
{
    let slot = first_slot(q);
    buf::get_u64(q, 128 + 16 * slot)
}

// A step of the first job, from a stored state or else its first.
pub fn step_first(q: &Quarter, stored: Option<State>) -> State
    ensures { result ≡ step_of (first_job q.now) (unwrap_or stored (start_of (first_job q.now))) }
{
    let slot = first_slot(q);
    let kind = buf::get_u64(q, 128 + 16 * slot);
    let n = buf::get_u64(q, 136 + 16 * slot);
    let from = 1024 + 640 * slot;
    let end = from + 640;
    stepping::step_request(kind, n, &q[from..end], stored)
}

#[tactic(auto, unfolding(board_spec::specs::Quarter::put_job))]
fn put_job(q: &mut Quarter, slot: usize, kind: u64, n: u64, block: &Block)
    requires { slot < 8 }
    ensures { q.new ≡ put_job q.old slot kind n block.now }
{
    buf::put_u64(q, 128 + 16 * slot, kind);
    buf::put_u64(q, 136 + 16 * slot, n);
    buf::put_part(q, 1024 + 640 * slot, block);
}

// Adds a job and returns its ticket.
#[tactic(auto, unfolding(board_spec::specs::Quarter::submit_quarter))]
pub fn submit_quarter(q: &mut Quarter, kind: u64, n: u64, block: &Block) -> u64
    requires { u64_at q.old held_at < 8 }
    ensures { (result ≡ u64_at q.old accepted_at) × (q.new ≡ submit_quarter q.old kind n block.now) }
{
    let ticket = buf::get_u64(q, 0);
    let held = buf::get_u64(q, 8);
    let next = std::num::wrapping_add_u64(ticket, 1);
    put_job(q, (ticket % 8) as usize, kind, n, block);
    buf::put_u64(q, 0, next);
    buf::put_u64(q, 8, held + 1);
    ticket
}
