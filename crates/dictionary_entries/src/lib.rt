// The entries of a dictionary's terms: found by their chain, appended, and entered where it starts.
#![tactic(auto)]

pub mod append; // append.rt: one term more
pub mod entry; // entry.rt: compared with a term, found
pub mod initial; // initial.rt: the terms of a started dictionary
mod values; // values.rt: where a name ends
