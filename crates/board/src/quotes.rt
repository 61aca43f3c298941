// Quote: the turns until a job submitted now would be handed out. The board is only read.
ghost use Rattle.std.specs.Prelude.{◌≡◌};
ghost use Rattle.board_spec.specs.Board.{quote_board};
ghost use Rattle.board.specs.Answers.{quoted_of};

use crate::ranges::{fits, lent};
use crate::types::{Refusal, check};

// Refusals 6, 1, 2 and 4 are tested in this order, as by submit.
#[tactic(auto, using(crate::proofs::CallLaws::fits_length, crate::proofs::CallLaws::turn_low, crate::proofs::CallLaws::each_fits), unfolding(board_spec::specs::Board::quote_board, board_spec::specs::Board::quote_judged, board_spec::specs::Board::refused_did, schedule::specs::Schedule::quote_verdict, crate::specs::Answers::quoted_of, crate::specs::Answers::refusal_number))]
pub fn quote(board: &[u8], queue: u64, kind: u64) -> Result<u64, Refusal>
    ensures { quoted_of result ≡ (quote_board board.now queue kind).answer }
{
    check(fits(board), Refusal::BadBoard)?;
    check(queue <= 3, Refusal::BadQueue)?;
    let q = lent(board, queue);
    let known = schedule::kind_fits(kind);
    let held = buf::get_u64(q, 8);
    check(known, Refusal::BadKind)?;
    check(held < 8, Refusal::Full)?;
    let turns = quarter::turns_left(q);
    let turn = buf::get_u64(board, 24576);
    Ok(schedule::turns_until(turn, queue, turns, kind))
}
