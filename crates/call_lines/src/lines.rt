// The line of an answer.
ghost use Rattle.std.specs.Prelude.{◌≤◌, ◌++◌, length};
ghost use Rattle.text.specs.Line.{number_text, newline};
ghost use Rattle.board.specs.Answers.{answer_of};
ghost use Rattle.call_lines.specs.Lines.{written_line, nothing_line, looked_line, line_for, Line};

use board::{Refusal, Reply, Shown};

// A word and a number.
pub fn put_named(out: &mut [u8], word: &[u8], number: u64) -> usize
    requires { (128 ≤ length out.old) × (length word.now ≤ 16) }
    ensures { Line out.old (word.now ++ number_text number newline) out.new result }
{
    buf::put_part(out, 0, word);
    text::put_number(out, word.len(), number, b'\n')
}

fn put_nothing(out: &mut [u8]) -> usize
    requires { 128 ≤ length out.old }
    ensures { Line out.old nothing_line out.new result }
{
    buf::put_part(out, 0, b"turned 0\n");
    9
}

fn put_written(out: &mut [u8], record: &[u8]) -> usize
    requires { (128 ≤ length out.old) × (64 ≤ length «record».now) }
    ensures { Line out.old (written_line «record».now) out.new result }
{
    let ticket = buf::get_u64(record, 0);
    let kind = buf::get_num(record, 8, 1);
    let queue = buf::get_num(record, 9, 1);
    buf::put_part(out, 0, b"turned 1 ");
    let a = text::put_number(out, 9, ticket, b' ');
    let b = text::put_number(out, a, kind, b' ');
    text::put_number(out, b, queue, b'\n')
}

fn put_looked(out: &mut [u8], shown: Shown) -> usize
    requires { 128 ≤ length out.old }
    ensures { Line out.old (looked_line shown.evaluations shown.density) out.new result }
{
    let bits = float::to_bits(shown.density);
    buf::put_part(out, 0, b"looked ");
    let a = text::put_number(out, 7, shown.evaluations, b' ');
    text::put_digits(out, a, 16, 16, bits);
    let end = a + 16;
    out[end] = b'\n';
    end + 1
}

// `record` is the record buffer after the call, and is read only where a record was written.
#[tactic(auto, unfolding(crate::specs::Lines::line_for, crate::specs::Lines::refused_word, crate::specs::Lines::ticket_word, crate::specs::Lines::quoted_word, board::specs::Answers::answer_of))]
pub fn put_told(out: &mut [u8], told: Result<Reply, Refusal>, record: &[u8]) -> usize
    requires { (128 ≤ length out.old) × (64 ≤ length «record».now) }
    ensures { Line out.old (line_for (answer_of told) «record».now) out.new result }
{
    match told {
        Ok(Reply::Ticket(ticket)) => put_named(out, b"ticket ", ticket),
        Ok(Reply::Turned(true)) => put_written(out, record),
        Ok(Reply::Turned(false)) => put_nothing(out),
        Ok(Reply::Shown(shown)) => put_looked(out, shown),
        Ok(Reply::Quoted(turns)) => put_named(out, b"quoted ", turns),
        Err(refusal) => put_named(out, b"refused ", u64::from(refusal)),
    }
}
