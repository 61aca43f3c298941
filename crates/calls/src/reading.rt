// Reads a call where it stands, with the index where the next begins.
ghost use Rattle.std.specs.Prelude.{◌≡◌, true, ◌+◌, ◌≤◌, length};
ghost use Rattle.calls.specs.Calls.{submit_at, turn_at, look_at, call_at, found_of, found_fits};

use crate::types::Call;

fn submit_at(calls: &[u8], at: usize) -> Option<(Call, usize)>
    requires { at + 40 ≤ length calls.now }
    ensures { (found_of calls.now result ≡ submit_at calls.now at) × (found_fits (length calls.now) result ≡ true) }
{
    let queue = buf::get_u64(calls, at + 8);
    let kind = buf::get_u64(calls, at + 16);
    let n = buf::get_u64(calls, at + 24);
    let length = buf::get_u64(calls, at + 32) as usize;
    let from = at + 40;
    if calls.len() - from < length {
        return None;
    }
    let call = Call::Submit {
        queue,
        kind,
        n,
        from,
        length,
    };
    Some((call, from + length))
}

fn turn_at(calls: &[u8], at: usize) -> Option<(Call, usize)>
    requires { at + 40 ≤ length calls.now }
    ensures { (found_of calls.now result ≡ turn_at calls.now at) × (found_fits (length calls.now) result ≡ true) }
{
    let length = buf::get_u64(calls, at + 32) as usize;
    if 256 < length {
        return None;
    }
    let call = Call::Turn { length };
    Some((call, at + 40))
}

fn look_at(calls: &[u8], at: usize) -> Option<(Call, usize)>
    requires { at + 40 ≤ length calls.now }
    ensures { (found_of calls.now result ≡ look_at calls.now at) × (found_fits (length calls.now) result ≡ true) }
{
    let queue = buf::get_u64(calls, at + 8);
    let call = Call::Look { queue };
    Some((call, at + 40))
}

// The call at index `at`, any index.
#[tactic(auto, unfolding(crate::specs::Calls::found_of, crate::specs::Calls::found_fits, crate::specs::Calls::call_at))]
pub fn call_at(calls: &[u8], at: usize) -> Option<(Call, usize)>
    ensures { (found_of calls.now result ≡ call_at calls.now at) × (found_fits (length calls.now) result ≡ true) }
{
    if calls.len() < 40 || calls.len() - 40 < at {
        return None;
    }
    match buf::get_u64(calls, at) {
        0 => submit_at(calls, at),
        1 => turn_at(calls, at),
        2 => look_at(calls, at),
        _ => None,
    }
}
