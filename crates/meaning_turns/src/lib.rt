// The definitions of closing in turns and their theorems: no code.
#![tactic(auto)]
