// Makes one call that stands in bytes on a board.
ghost use Rattle.std.specs.Prelude.{◌≡◌, true, ◌+◌, ◌≤◌, length};
ghost use Rattle.buf.specs.Bytes.{part};
ghost use Rattle.schedule.specs.Schedule.{Turn};
ghost use Rattle.board.specs.Answers.{answer_of};
ghost use Rattle.calls.specs.Calls.{call_with, call_of, call_fits};
ghost use Rattle.replay.specs.Replay.{ToldCall, MadeCall};

use board::{Refusal, Reply};
use calls::Call;

// The bytes of s from index `from`, at most `length`.
#[tactic(auto, unfolding(buf::specs::Bytes::part))]
fn part_of(s: &[u8], from: usize, length: usize) -> &[u8]
    ensures { result.now ≡ part s.now from length }
{
    if s.len() <= from {
        return &s[..0];
    }
    let rest = &s[from..];
    if rest.len() < length {
        return rest;
    }
    &rest[..length]
}

// A turn with the first bytes of `record` as its buffer, at most `length`.
fn tell_turn(board: &mut [u8], record: &mut [u8], length: usize) -> Result<Reply, Refusal>
    ensures { ToldCall board.old «record».old (Turn (part «record».old 0 length)) (answer_of result) board.new «record».new }
{
    if record.len() < length {
        return board::tell_turn(board, record);
    }
    board::tell_turn(board, &mut record[..length])
}

// A turn's buffer is the start of `record`, which a submit and a look leave alone.
pub fn tell_call(
    board: &mut [u8],
    calls: &[u8],
    call: Call,
    record: &mut [u8],
) -> Result<Reply, Refusal>
    ensures { ToldCall board.old «record».old (call_with calls.now (part «record».old 0) call) (answer_of result) board.new «record».new }
{
    match call {
        Call::Submit {
            queue,
            kind,
            n,
            from,
            length,
        } => board::tell_submit(board, queue, kind, n, part_of(calls, from, length)),
        Call::Turn { length } => tell_turn(board, record, length),
        Call::Look { queue } => board::tell_look(board, queue),
    }
}

// Writes the public answer at index `at` of `answers`.
pub fn make_call(board: &mut [u8], calls: &[u8], call: Call, answers: &mut [u8], at: usize)
    requires { (at + 32 ≤ length answers.old) × (call_fits (length calls.now) call ≡ true) }
    ensures { MadeCall board.old answers.old at (call_of calls.now call) board.new answers.new }
{
    let mut record = [0u8; 256];
    let told = tell_call(board, calls, call, &mut record);
    calls::put_answer(answers, at, told, &record);
}
