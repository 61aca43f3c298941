// Calls read from standard input one at a time, so that any number of them is answered in the same memory. A failed read is the end of the
// input. By the kit's `io`, since std's readers are handed out by the runtime of `main` alone, and `answer_input` asks for none.
ghost use Rattle.std.specs.Prelude.{◌≤◌};

use crate::lines::put_named;
use crate::saying::say_call;

const STDIN_FILENO: i32 = 0;

const STDOUT_FILENO: i32 = 1;

// How many bytes of the next call stand in the buffer, and how many more were read past it.
#[derive(Clone, Copy)]
struct Filled {
    count: usize,
    beyond: u64,
}

// Reads up to n bytes and forgets them. Answers how many there were.
fn skip(n: u64) -> u64
    ensures { result ≤ n }
{
    let mut chunk = [0u8; 256];
    let mut done: u64 = 0;
    while done < n {
        let want = (n - done).min(256) as usize;
        let got = io::read_full(STDIN_FILENO, &mut chunk[..want]);
        done += got as u64;
        if got < want {
            break;
        }
    }
    done
}

// Reads the next call into `call`, which has room for a header and 641 bytes. A longer block is refused whatever its bytes are, so its first 641
// stand for it.
fn fill(call: &mut [u8; 681]) -> Filled
    ensures { result.count ≤ 681 }
{
    let got = io::read_full(STDIN_FILENO, &mut call[..40]);
    if got < 40 || buf::get_u64(call, 0) != 0 {
        return Filled {
            count: got,
            beyond: 0,
        };
    }
    let length = buf::get_u64(call, 32);
    if length <= 641 {
        let end = 40 + length as usize;
        let more = io::read_full(STDIN_FILENO, &mut call[40..end]);
        return Filled {
            count: 40 + more,
            beyond: 0,
        };
    }
    let more = io::read_full(STDIN_FILENO, &mut call[40..]);
    let beyond = skip(length - 641);
    if beyond < length - 641 {
        return Filled {
            count: 40 + more,
            beyond,
        };
    }
    buf::put_u64(call, 32, 641);
    Filled {
        count: 40 + more,
        beyond: 0,
    }
}

// Says how many bytes were left that make no call.
fn say_end(out: &mut [u8; 128], filled: Filled) {
    let rest = skip(u64::MAX).wrapping_add(filled.beyond);
    let end = put_named(out, b"end ", rest.wrapping_add(filled.count as u64));
    io::write_all(STDOUT_FILENO, &out[..end]);
}

// Reads a call, makes it and writes its line. Answers whether to go on.
#[tactic(auto, using(replay::proofs::RunLaws::found_fits_lem))]
fn answer_next(board: &mut [u8], call: &mut [u8; 681], out: &mut [u8; 128]) -> bool {
    let filled = fill(call);
    if filled.count == 0 {
        return false;
    }
    let bytes = &call[..filled.count];
    let Some((found, _)) = calls::call_at(bytes, 0) else {
        say_end(out, filled);
        return false;
    };
    let end = say_call(board, bytes, found, out);
    io::write_all(STDOUT_FILENO, &out[..end])
}

// A proved loop has to end, and nothing says that the input does: the count is one that no run uses up.
pub fn answer_input() {
    let mut board = [0u8; 24584];
    let mut call = [0u8; 681];
    let mut out = [0u8; 128];
    for _ in 0..u64::MAX {
        if !answer_next(&mut board, &mut call, &mut out) {
            break;
        }
    }
}
