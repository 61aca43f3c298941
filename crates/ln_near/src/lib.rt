// How near the logarithm of the crate `float` is to the exact one, proved about its definition: specs/LnNear.antt states
// it and proofs/Near.antt proves it. There is nothing to run.
#![tactic(auto)]
