// The running search of a quarter, as numbers and floats in its bytes.
ghost use Rattle.std.specs.Prelude.{◌≡◌};
ghost use Rattle.board_spec.specs.Quarter.{load_counters, load_values, load_state, store_counters, store_values, store_state};

use crate::bytes::Quarter;
use solver::{Counters, Numbers, Values};
use solver_state::State;

#[tactic(auto, unfolding(board_spec::specs::Quarter::load_counters))]
pub fn load_counters(q: &Quarter) -> Counters
    ensures { result ≡ load_counters q.now }
{
    let stage = buf::get_u64(q, 24);
    let tag = buf::get_u64(q, 32);
    let status = buf::get_u64(q, 40);
    let left = buf::get_u64(q, 48);
    let way = buf::get_u64(q, 56);
    let rounds = buf::get_u64(q, 64);
    Counters {
        stage,
        tag,
        status,
        left,
        way,
        rounds,
    }
}

#[tactic(auto, unfolding(board_spec::specs::Quarter::load_values))]
fn load_values(q: &Quarter) -> Values
    ensures { result ≡ load_values q.now }
{
    let first = buf::get_f64(q, 72);
    let second = buf::get_f64(q, 80);
    let third = buf::get_f64(q, 88);
    Values {
        first,
        second,
        third,
    }
}

#[tactic(auto, unfolding(board_spec::specs::Quarter::load_state))]
pub fn load_state(q: &Quarter) -> State
    ensures { result ≡ load_state q.now }
{
    let counters = load_counters(q);
    let values = load_values(q);
    let numbers = Numbers { counters, values };
    let evaluations = buf::get_u64(q, 96);
    let latest = buf::get_f64(q, 104);
    State {
        numbers,
        evaluations,
        latest,
    }
}

#[tactic(auto, unfolding(board_spec::specs::Quarter::store_counters))]
fn store_counters(q: &mut Quarter, counters: Counters)
    ensures { q.new ≡ store_counters q.old counters }
{
    buf::put_u64(q, 24, counters.stage);
    buf::put_u64(q, 32, counters.tag);
    buf::put_u64(q, 40, counters.status);
    buf::put_u64(q, 48, counters.left);
    buf::put_u64(q, 56, counters.way);
    buf::put_u64(q, 64, counters.rounds);
}

#[tactic(auto, unfolding(board_spec::specs::Quarter::store_values))]
fn store_values(q: &mut Quarter, values: Values)
    ensures { q.new ≡ store_values q.old values }
{
    buf::put_f64(q, 72, values.first);
    buf::put_f64(q, 80, values.second);
    buf::put_f64(q, 88, values.third);
}

#[tactic(auto, unfolding(board_spec::specs::Quarter::store_state))]
pub fn store_state(q: &mut Quarter, state: State)
    ensures { q.new ≡ store_state q.old state }
{
    let numbers = state.numbers;
    let counters = numbers.counters;
    let values = numbers.values;
    store_counters(q, counters);
    store_values(q, values);
    buf::put_u64(q, 96, state.evaluations);
    buf::put_f64(q, 104, state.latest);
}
