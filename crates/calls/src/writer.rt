// Writes the public part of an answer.
ghost use Rattle.std.specs.Prelude.{◌≡◌, if◌then◌else◌, [], ◌+◌, ◌≤◌, length};
ghost use Rattle.buf.specs.Bytes.{part, splice};
ghost use Rattle.board_spec.specs.Run.{public_of};
ghost use Rattle.board.specs.Answers.{answer_of};
ghost use Rattle.calls.specs.Calls.{framed, answer_bytes};

use board::{Refusal, Reply};

// The 32 bytes of an answer at index `at`, whatever it is and whatever its number.
pub fn put_framed(out: &mut [u8], at: usize, what: u64, number: u64, written: &[u8])
    requires { (at + 32 ≤ length out.old) × (length written.now ≤ 16) }
    ensures { out.new ≡ splice out.old at (framed what number written.now) }
{
    let mut answer = [0u8; 32];
    buf::put_u64(&mut answer, 0, what);
    buf::put_u64(&mut answer, 8, number);
    buf::put_part(&mut answer, 16, written);
    buf::put_part(out, at, &answer);
}

// Of the record that was written only bytes 0 to 15.
#[tactic(auto, using(crate::proofs::WriteLaws::part_short), unfolding(buf::specs::Bytes::part))]
fn put_turned(out: &mut [u8], at: usize, written: bool, record: &[u8])
    requires { at + 32 ≤ length out.old }
    ensures { out.new ≡ splice out.old at (framed 2 (if written then 1 else 0) (if written then part «record».now 0 16 else [])) }
{
    if !written {
        put_framed(out, at, 2, 0, b"");
        return;
    }
    if record.len() < 16 {
        put_framed(out, at, 2, 1, record);
        return;
    }
    put_framed(out, at, 2, 1, &record[..16]);
}

// The 32 bytes of an answer at index `at`; `record` is the record buffer after the call, and is read only where a record was written.
#[tactic(auto, unfolding(crate::specs::Calls::answer_bytes, board_spec::specs::Run::public_of, board::specs::Answers::answer_of))]
pub fn put_answer(out: &mut [u8], at: usize, told: Result<Reply, Refusal>, record: &[u8])
    requires { at + 32 ≤ length out.old }
    ensures { out.new ≡ splice out.old at (answer_bytes (public_of (record { answer = answer_of told; buffer = «record».now }))) }
{
    match told {
        Ok(Reply::Ticket(ticket)) => put_framed(out, at, 1, ticket, b""),
        Ok(Reply::Turned(written)) => put_turned(out, at, written, record),
        Ok(Reply::Shown(_)) => put_framed(out, at, 3, 0, b""),
        Ok(Reply::Quoted(turns)) => put_framed(out, at, 4, turns, b""),
        Err(refusal) => put_framed(out, at, 0, u64::from(refusal), b""),
    }
}
