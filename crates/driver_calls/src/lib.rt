// Demand 3: a theorem over the definitions that the contracts of dictionary_index and driver_run cite; it has no code of its own.
#![tactic(auto)]
