// What a run answers.

// The number of triples of the answer, and the number of findings of each check.
#[derive(Clone, Copy)]
pub struct RunAnswer {
    pub count: u32,
    pub counts: [u32; 5],
}
