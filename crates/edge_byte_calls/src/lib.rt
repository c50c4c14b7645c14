// Demand 3 over bytes: a theorem over the definitions that the contracts of entry cite; it has no code of its own.
#![tactic(auto)]
