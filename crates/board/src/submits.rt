// Submit: a job for a queue.
ghost use Rattle.std.specs.Prelude.{◌≡◌, ◌≤◌, ◌<◌, length};
ghost use Rattle.buf.specs.Bytes.{u64_at};
ghost use Rattle.board_spec.specs.Layout.{accepted_at, held_at};
ghost use Rattle.board_spec.specs.Quarter.{submit_quarter};
ghost use Rattle.board_spec.specs.Board.{quarter_of, with_quarter, submit_board};
ghost use Rattle.board.specs.Answers.{submitted_of};

use crate::ranges::{fits, lent};
use crate::types::{Refusal, check};
use quarter::Block;

// Adds a job to a quarter that has room, and returns its ticket. The part is a parameter of its own, since the check follows a part that is
// lent whole, and loses an array that is lent out of a part.
fn submit_part(part: &mut [u8], kind: u64, n: u64, block: &Block) -> u64
    requires { (length part.old ≡ 6144) × (u64_at part.old held_at < 8) }
    ensures { (result ≡ u64_at part.old accepted_at) × (part.new ≡ submit_quarter part.old kind n block.now) }
{
    let Some(q) = part.as_mut_array() else {
        unreachable!()
    };
    quarter::submit_quarter(q, kind, n, block)
}

#[tactic(auto, using(crate::proofs::CallLaws::lent_is))]
fn submit_to(board: &mut [u8], queue: u64, kind: u64, n: u64, block: &Block) -> u64
    requires { (length board.old ≡ 24584) × (queue ≤ 3) × (u64_at (quarter_of board.old queue) held_at < 8) }
    ensures { (result ≡ u64_at (quarter_of board.old queue) accepted_at) × (board.new ≡ with_quarter board.old queue (submit_quarter (quarter_of board.old queue) kind n block.now)) }
{
    let from = 6144 * (queue as usize);
    let end = from + 6144;
    submit_part(&mut board[from..end], kind, n, block)
}

// The job's ticket. Refusals 6, 1, 2, 3, 8 and 4 are tested in this order and change nothing.
#[tactic(auto, using(crate::proofs::CallLaws::fits_length), unfolding(board_spec::specs::Board::submit_board, board_spec::specs::Board::submit_judged, board_spec::specs::Board::refused_did, schedule::specs::Schedule::submit_verdict, crate::specs::Answers::submitted_of, crate::specs::Answers::refusal_number))]
pub fn submit(board: &mut [u8], queue: u64, kind: u64, n: u64, block: &[u8]) -> Result<u64, Refusal>
    ensures { (submitted_of result ≡ (submit_board board.old queue kind n block.now).answer) × (board.new ≡ (submit_board board.old queue kind n block.now).board) }
{
    check(fits(board), Refusal::BadBoard)?;
    check(queue <= 3, Refusal::BadQueue)?;
    check(schedule::kind_fits(kind), Refusal::BadKind)?;
    check(schedule::count_fits(kind, n), Refusal::BadCount)?;
    let block = block.as_array().ok_or(Refusal::BadBlockLength)?;
    let held = buf::get_u64(lent(board, queue), 8);
    check(held < 8, Refusal::Full)?;
    Ok(submit_to(board, queue, kind, n, block))
}
