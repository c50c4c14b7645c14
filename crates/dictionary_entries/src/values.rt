// Where a name ends, and where the next begins.
#[derive(Clone, Copy)]
pub struct Word {
    pub end: usize,
    pub next: usize,
}
