// Canonical RDF 1.1 N-Triples: the definitions are in specs/, the theorems about them in proofs/. The crate has no code.
#![tactic(auto)]
