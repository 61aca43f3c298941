// A request of 642 bytes (kind, N, block) is submitted to queue 0 of a fresh board and has turns until its record is written. The programs
// `job`, `job_found`, `job_refused` and `job_short` are this on one input each.
#![tactic(auto)]

ghost use Rattle.std.specs.Prelude.{◌≡◌, ◌≤◌, length};
ghost use Rattle.buf.specs.Bytes.{splice};
ghost use Rattle.jobs.specs.Line.{refused_number, verdict_of, refusal_by, record_by, reply_of};

use board::Refusal;

const STDIN_FILENO: i32 = 0;

const STDOUT_FILENO: i32 = 1;

// Runs a job on the board, which is cleared first, and writes its record, unless the submit is refused. A span has at most 6,204 turns of
// the job's queue, every fourth one.
fn run(board: &mut [u8], kind: u64, n: u64, block: &[u8], record: &mut [u8]) -> Result<(), Refusal>
    requires { (length board.old ≡ 24584) × (64 ≤ length «record».old) }
    ensures { (refused_number result ≡ refusal_by (verdict_of kind n block.now)) × («record».new ≡ record_by kind n block.now «record».old (verdict_of kind n block.now)) }
{
    replay::clear(board);
    board::submit(board, 0, kind, n, block)?;
    for _made in 0..24816u64 {
        let written = board::turn(board, record).unwrap_or(false);
        if written {
            return Ok(());
        }
    }
    Ok(())
}

// Stores the line of a whole request at the start of `out`, and answers its length.
fn reply(request: &[u8; 642], out: &mut [u8]) -> usize
    requires { 114 ≤ length out.old }
    ensures { (out.new ≡ splice out.old 0 (reply_of request.now)) × (result ≡ length (reply_of request.now)) × (result ≤ 114) }
{
    let kind = u64::from(request[0]);
    let n = u64::from(request[1]);
    let mut board = [0u8; 24584];
    let mut record = [0u8; 64];
    match run(&mut board, kind, n, &request[2..642], &mut record) {
        Ok(()) => text::put_line(out, kind, &record),
        Err(refusal) => text::put_number(out, 0, u64::from(refusal), b'\n'),
    }
}

// Answers the request on standard input with the record's line. Bytes after the request are ignored; where there are fewer, `short` is printed.
// By the kit's `io`, since std's readers are handed out by the runtime of `main` alone, and this asks for none.
pub fn answer_input() {
    let mut request = [0u8; 642];
    if io::read_full(STDIN_FILENO, &mut request) < 642 {
        io::write_all(STDOUT_FILENO, b"short\n");
        return;
    }
    let mut out = [0u8; 114];
    let end = reply(&request, &mut out);
    io::write_all(STDOUT_FILENO, &out[..end]);
}
