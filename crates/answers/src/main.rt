// Answers requests of 642 bytes (kind, N, block) from standard input with a line each, until the input ends. A last piece
// that is too short is answered `short`.
#![tactic(auto)]

ghost use Rattle.std.specs.Prelude.{◌≡◌, ◌≤◌, ◌<◌, length};
ghost use Rattle.buf.specs.Bytes.{splice};
ghost use Rattle.answers.specs.Reply.{reply_of};

use std::io::{self, Read, Write};

// Stores the line of a whole request at the start of `out`, and answers its length.
fn reply(request: &[u8], out: &mut [u8]) -> usize
    requires { (642 ≡ length request.now) × (114 ≤ length out.old) }
    ensures { (out.new ≡ splice out.old 0 (reply_of request.now)) × (result ≡ length (reply_of request.now)) × (result ≤ 114) }
{
    let kind = u64::from(request[0]);
    let n = u64::from(request[1]);
    let mut record = [0u8; 64];
    let answered = records::answer(kind, n, &request[2..642], &mut record);
    let refusal = records::number(answered);
    if refusal == 0 {
        return text::put_line(out, kind, &record);
    }
    text::put_number(out, 0, refusal, b'\n')
}

// Reads until `s` is full, the input ends or a read fails. Answers how many bytes there were.
fn read_full(input: &mut impl Read, s: &mut [u8]) -> usize
    ensures { result ≤ length s.old }
{
    let mut done = 0;
    while done < s.len() {
        match input.read(&mut s[done..]) {
            Ok(got) if 0 < got => done += got,
            _ => break,
        }
    }
    done
}

// Reads a request and writes its line. Answers whether to go on.
fn answer_next(input: &mut impl Read, output: &mut impl Write) -> bool {
    let mut request = [0u8; 642];
    let mut out = [0u8; 114];
    let got = read_full(input, &mut request);
    if got == 0 {
        return false;
    }
    if got < 642 {
        output.write_all(b"short\n").unwrap_or(());
        return false;
    }
    let end = reply(&request, &mut out);
    output.write_all(&out[..end]).is_ok()
}

// A loop has to end, and nothing says that the input does: no run uses up this count. A failed read is the end of the input, and
// a failed write ends the run.
fn main(rt: HostRuntime) {
    let mut input = rt.stdin();
    let mut output = io::writer(&rt);
    for _ in 0..u64::MAX {
        if !answer_next(&mut input, &mut output) {
            break;
        }
    }
}
