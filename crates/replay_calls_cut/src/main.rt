// One run of `call_lines` in the gate.
#![tactic(auto)]

fn main() {
    call_lines::answer_input();
}
