// Turn: the queue that the board names is served once, and the next queue is named.
ghost use Rattle.std.specs.Prelude.{◌≡◌, ◌≤◌, true, length, if◌then◌else◌};
ghost use Rattle.schedule.specs.Schedule.{onward as onward_of};
ghost use Rattle.board_spec.specs.Quarter.{quarter_fits, turn_quarter};
ghost use Rattle.board_spec.specs.Board.{quarter_of, with_quarter, turn_board};
ghost use Rattle.board.specs.Answers.{turned_of};

use crate::ranges::fits;
use crate::types::{Refusal, check};

#[tactic(auto, unfolding(schedule::specs::Schedule::onward))]
fn onward(queue: u64) -> u64
    requires { queue ≤ 3 }
    ensures { result ≡ onward_of queue }
{
    if queue == 3 { 0 } else { queue + 1 }
}

// Serves a queue once. Whether a record was written.
fn turn_part(queue: u64, part: &mut [u8], record: &mut [u8]) -> bool
    requires { (length part.old ≡ 6144) × (64 ≤ length «record».old) × (quarter_fits part.old ≡ true) }
    ensures { ((if result then 1 else 0) ≡ (turn_quarter queue part.old «record».old).answer) × (part.new ≡ (turn_quarter queue part.old «record».old).quarter) × («record».new ≡ (turn_quarter queue part.old «record».old).buffer) }
{
    let Some(q) = part.as_mut_array() else {
        unreachable!()
    };
    quarter::turn_quarter(queue, q, record)
}

#[tactic(auto, using(crate::proofs::CallLaws::lent_is))]
fn turn_of(board: &mut [u8], queue: u64, record: &mut [u8]) -> bool
    requires { (length board.old ≡ 24584) × (queue ≤ 3) × (64 ≤ length «record».old) × (quarter_fits (quarter_of board.old queue) ≡ true) }
    ensures { ((if result then 1 else 0) ≡ (turn_quarter queue (quarter_of board.old queue) «record».old).answer) × (board.new ≡ with_quarter board.old queue (turn_quarter queue (quarter_of board.old queue) «record».old).quarter) × («record».new ≡ (turn_quarter queue (quarter_of board.old queue) «record».old).buffer) }
{
    let from = 6144 * (queue as usize);
    let end = from + 6144;
    turn_part(queue, &mut board[from..end], record)
}

// Whether a record was written: where a job's span ends, and else the buffer is left alone. Refusals 6 and 5 are tested in this order
// and change nothing.
#[tactic(auto, using(crate::proofs::CallLaws::fits_length, crate::proofs::CallLaws::turn_low, crate::proofs::CallLaws::each_fits), unfolding(board_spec::specs::Board::turn_board, board_spec::specs::Board::turn_judged, board_spec::specs::Board::turn_did, board_spec::specs::Board::refused_did, schedule::specs::Schedule::turn_verdict, crate::specs::Answers::turned_of, crate::specs::Answers::refusal_number))]
pub fn turn(board: &mut [u8], record: &mut [u8]) -> Result<bool, Refusal>
    ensures { (turned_of result ≡ (turn_board board.old «record».old).answer) × (board.new ≡ (turn_board board.old «record».old).board) × («record».new ≡ (turn_board board.old «record».old).buffer) }
{
    check(fits(board), Refusal::BadBoard)?;
    check(64 <= record.len(), Refusal::ShortRecord)?;
    let queue = buf::get_u64(board, 24576);
    let written = turn_of(board, queue, record);
    buf::put_u64(board, 24576, onward(queue));
    Ok(written)
}
