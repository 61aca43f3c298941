// The turns that the jobs of a quarter still need: what a quote rests on. The quarter is only read.
ghost use Rattle.std.specs.Prelude.{◌≡◌, ◌*◌, ◌≤◌, true};
ghost use Rattle.board_spec.specs.Quarter.{spans_from, turns_left, quarter_fits};

use crate::bytes::Quarter;
use crate::jobs::first_ticket;

// The spans of so many jobs from this ticket on, together.
fn spans_from(q: &Quarter, ticket: u64, count: u64) -> u64
    requires { count ≤ 8 }
    ensures { (result ≡ spans_from q.now ticket count) × (result ≤ 6204 * count) }
{
    let first = ticket % 8;
    let mut sum: u64 = 0;
    for i in 0..count {
        let slot = ((first + i) % 8) as usize;
        sum += schedule::span_of(buf::get_u64(q, 128 + 16 * slot));
    }
    sum
}

// On a quarter in range the first job has had fewer turns than its span, and none where there is no job.
pub fn turns_left(q: &Quarter) -> u64
    requires { quarter_fits q.now ≡ true }
    ensures { (result ≡ turns_left q.now) × (result ≤ 49632) }
{
    let held = buf::get_u64(q, 8);
    let spans = spans_from(q, first_ticket(q), held);
    spans - buf::get_u64(q, 16)
}
