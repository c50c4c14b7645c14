// What a run means: the rules, list sets, start, closure, findings, the pass and the rule of each row, refusals 8 and 9, the batching law
// and the worked cases. Definitions and theorems; no code.
#![tactic(auto)]
