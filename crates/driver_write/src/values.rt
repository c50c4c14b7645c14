// What writing answers.

// The text's length, and how many triples are left out.
#[derive(Clone, Copy)]
pub struct WriteNext {
    pub used: usize,
    pub left: u32,
}
