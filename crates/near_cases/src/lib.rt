// Document 01's near cases that are marked M, proved about the definitions: specs/NearCases.antt states them and
// proofs/Holds.antt proves them. There is nothing to run.
#![tactic(auto)]
