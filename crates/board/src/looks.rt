// Look: the running job of a queue. The board is only read.
ghost use Rattle.std.specs.Prelude.{◌≡◌};
ghost use Rattle.board_spec.specs.Board.{look_board};
ghost use Rattle.board.specs.Answers.{looked_of};

use crate::ranges::{fits, lent};
use crate::types::{Refusal, Shown, check};

// Refusals 6, 1 and 7 are tested in this order.
#[tactic(auto, using(crate::proofs::CallLaws::fits_length), unfolding(board_spec::specs::Board::look_board, board_spec::specs::Board::look_judged, board_spec::specs::Board::refused_did, schedule::specs::Schedule::look_verdict, crate::specs::Answers::looked_of, crate::specs::Answers::refusal_number))]
pub fn look(board: &[u8], queue: u64) -> Result<Shown, Refusal>
    ensures { looked_of result ≡ (look_board board.now queue).answer }
{
    check(fits(board), Refusal::BadBoard)?;
    check(queue <= 3, Refusal::BadQueue)?;
    let q = lent(board, queue);
    check(1 <= buf::get_u64(q, 16), Refusal::NotRunning)?;
    let state = quarter::load_state(q);
    Ok(Shown {
        evaluations: state.evaluations,
        density: state.latest,
    })
}
