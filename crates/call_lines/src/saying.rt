// Makes one call on a board and stores its line at the start of `out`. Answers the line's length.
ghost use Rattle.std.specs.Prelude.{◌≡◌, ◌≤◌, true, length};
ghost use Rattle.calls.specs.Calls.{call_of, call_fits};
ghost use Rattle.call_lines.specs.Lines.{SaidCall};

use crate::lines::put_told;
use calls::Call;

pub fn say_call(board: &mut [u8], calls: &[u8], call: Call, out: &mut [u8]) -> usize
    requires { (128 ≤ length out.old) × (call_fits (length calls.now) call ≡ true) }
    ensures { SaidCall board.old out.old (call_of calls.now call) board.new out.new result }
{
    let mut record = [0u8; 256];
    let told = replay::tell_call(board, calls, call, &mut record);
    put_told(out, told, &record)
}
