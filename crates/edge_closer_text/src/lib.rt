// What program closer reads and prints, as functions on slices.
#![tactic(auto)]

pub mod input; // input.rt: the count and the id lines
pub mod output; // output.rt: lines of numbers, and the program's four outputs

pub use input::{BadLine, IDS, Input, LONGEST, parse};
pub use output::{
    FINDINGS, NAME, OUTPUT, STORE, THREE_WIDTH, print_answer, print_bad_line, print_name,
    print_refusal,
};
