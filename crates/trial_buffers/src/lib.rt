// Numbers by cell, numbers read from a text, and a tally, for the programs that hold calls to values written beforehand.
#![tactic(auto)]

pub mod memory; // memory.rt: numbers by cell
pub mod reader; // reader.rt: decimal numbers of a text
pub mod tally; // tally.rt: what a list of calls has shown
