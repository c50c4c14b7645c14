// Rows of numbers put in order in place, and the answer at the end.
#![tactic(auto)]

pub mod answer; // answer.rt: what stands in the store at the end
pub mod groups; // groups.rt: rows put into groups by their first number
pub mod sort; // sort.rt: rows of any width, put in order in place

pub use answer::{TRIPLE, leave_answer, leave_rows};
pub use sort::sort_rows;
