// Rows of numbers in a lent slice: a store of triples with its membership hash, chains of rows by key, and rows that have an id 0
// taken out.
#![tactic(auto)]

pub mod chains; // chains.rt: the rows that have one key, the latest first
pub mod layout; // layout.rt: the blocks of the index buffer, and the lengths of buffers
pub mod store; // store.rt: rows read, written, compared, looked up and appended
pub mod zeros; // zeros.rt: rows that have an id 0, taken out

pub use chains::{BLOCK, KEYS, count_of, enter, head, link, push, wide};
pub use layout::{
    HASH_LENGTH, INDEX_LENGTH, MEMBERS, OBJECTS, PREDICATES, RESTS, ROLES_LENGTH, SUBJECTS,
};
pub use store::{
    Full, Pass, add, bucket, contains, contains_below, index_row, kept_by, load_row, position,
    put_row, row, shown, whole_row,
};
pub use zeros::remove_zero_rows;
