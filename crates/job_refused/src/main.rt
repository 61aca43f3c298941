// One run of `jobs` in the gate.
#![tactic(auto)]

fn main() {
    jobs::answer_input();
}
