// Makes the calls that stand in bytes one after the other, on a fresh board.
ghost use Rattle.std.specs.Prelude.{◌≡◌, length};
ghost use Rattle.buf.specs.Bytes.{zeros};
ghost use Rattle.replay.specs.Replay.{calls_for, replay_did, MadeRun};

use crate::making::make_call;
use crate::types::BadBoard;

#[tactic(auto, unfolding(buf::specs::Bytes::zeros))]
pub fn clear(s: &mut [u8])
    ensures { s.new ≡ zeros (length s.old) }
{
    s.fill(0);
}

// On any board, as it is. Answers how many calls were made.
fn make_calls(board: &mut [u8], calls: &[u8], answers: &mut [u8]) -> usize
    ensures { MadeRun board.old answers.old (calls_for calls.now answers.old) board.new answers.new result }
{
    let room = answers.len() / 32;
    let mut at: usize = 0;
    for made in 0..room {
        let Some((call, next)) = calls::call_at(calls, at) else {
            return made;
        };
        make_call(board, calls, call, answers, 32 * made);
        at = next;
    }
    room
}

// Clears the board, makes the calls and writes what the public sees of each, 32 bytes a call, as many as `answers` has room for.
pub fn replay(board: &mut [u8], calls: &[u8], answers: &mut [u8]) -> Result<u64, BadBoard>
    ensures { (result ≡ (replay_did board.old calls.now answers.old).answer) × (board.new ≡ (replay_did board.old calls.now answers.old).board) × (answers.new ≡ (replay_did board.old calls.now answers.old).answers) }
{
    if board.len() != 24584 {
        return Err(BadBoard);
    }
    clear(board);
    Ok(make_calls(board, calls, answers) as u64)
}
