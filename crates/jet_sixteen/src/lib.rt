// No code: what requests yield in jets of 32 is what they yield in document 01's jets of 16. specs/Same.antt has the
// statement.
#![tactic(auto)]
