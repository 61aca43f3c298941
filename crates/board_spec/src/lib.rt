// The board's bytes, what each call makes of them, and demand 3 over whole runs. Definitions and statements in specs/, proofs in proofs/.
#![tactic(auto)]
