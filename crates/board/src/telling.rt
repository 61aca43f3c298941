// Submit, turn, look and quote with answers of one type, by which calls are written and printed, and an answer as a number.
ghost use Rattle.std.specs.Prelude.{◌≡◌};
ghost use Rattle.board_spec.specs.Board.{submit_board, turn_board, look_board, quote_board};
ghost use Rattle.board.specs.Answers.{answer_of, number_of};

use crate::looks::look;
use crate::quotes::quote;
use crate::submits::submit;
use crate::turns::turn;
use crate::types::{Refusal, Reply};

#[tactic(auto, unfolding(crate::specs::Answers::answer_of, crate::specs::Answers::submitted_of))]
pub fn tell_submit(
    board: &mut [u8],
    queue: u64,
    kind: u64,
    n: u64,
    block: &[u8],
) -> Result<Reply, Refusal>
    ensures { (answer_of result ≡ (submit_board board.old queue kind n block.now).answer) × (board.new ≡ (submit_board board.old queue kind n block.now).board) }
{
    Ok(Reply::Ticket(submit(board, queue, kind, n, block)?))
}

#[tactic(auto, unfolding(crate::specs::Answers::answer_of, crate::specs::Answers::turned_of))]
pub fn tell_turn(board: &mut [u8], record: &mut [u8]) -> Result<Reply, Refusal>
    ensures { (answer_of result ≡ (turn_board board.old «record».old).answer) × (board.new ≡ (turn_board board.old «record».old).board) × («record».new ≡ (turn_board board.old «record».old).buffer) }
{
    Ok(Reply::Turned(turn(board, record)?))
}

#[tactic(auto, unfolding(crate::specs::Answers::answer_of, crate::specs::Answers::looked_of))]
pub fn tell_look(board: &[u8], queue: u64) -> Result<Reply, Refusal>
    ensures { answer_of result ≡ (look_board board.now queue).answer }
{
    Ok(Reply::Shown(look(board, queue)?))
}

#[tactic(auto, unfolding(crate::specs::Answers::answer_of, crate::specs::Answers::quoted_of))]
pub fn tell_quote(board: &[u8], queue: u64, kind: u64) -> Result<Reply, Refusal>
    ensures { answer_of result ≡ (quote_board board.now queue kind).answer }
{
    Ok(Reply::Quoted(quote(board, queue, kind)?))
}

// An answer as one number: the refusal's, a turn's 0 or 1, else 0.
#[tactic(auto, unfolding(crate::specs::Answers::answer_of, crate::specs::Answers::number_of))]
pub fn number(told: Result<Reply, Refusal>) -> u64
    ensures { result ≡ number_of (answer_of told) }
{
    match told {
        Ok(Reply::Turned(written)) => u64::from(written),
        Ok(Reply::Ticket(_) | Reply::Shown(_) | Reply::Quoted(_)) => 0,
        Err(refusal) => u64::from(refusal),
    }
}
