// The test behind 6, for any bytes: the length, the turn, and the four quarters.
ghost use Rattle.std.specs.Prelude.{◌≡◌, ◌≤◌, length};
ghost use Rattle.board_spec.specs.Board.{quarter_of, board_fits};

use quarter::Quarter;

// The quarter of a queue.
#[tactic(auto, using(crate::proofs::CallLaws::lent_is))]
pub fn lent(board: &[u8], queue: u64) -> &Quarter
    requires { (length board.now ≡ 24584) × (queue ≤ 3) }
    ensures { result.now ≡ quarter_of board.now queue }
{
    let from = 6144 * (queue as usize);
    let end = from + 6144;
    board[from..end].as_array().unwrap()
}

#[tactic(auto, unfolding(board_spec::specs::Board::board_fits))]
pub fn fits(board: &[u8]) -> bool
    ensures { result ≡ board_fits board.now }
{
    board.len() == 24584
        && buf::get_u64(board, 24576) < 4
        && quarter::quarter_fits(lent(board, 0))
        && quarter::quarter_fits(lent(board, 1))
        && quarter::quarter_fits(lent(board, 2))
        && quarter::quarter_fits(lent(board, 3))
}
