// A memory: numbers by cell, on which program trial_replay makes its calls. crates/trial_replay/README.md has the map of its cells.
ghost use Rattle.std.specs.Prelude.{◌≡◌, List, ℕ, ◌%◌, ◌<◌, ◌≤◌, length, slice_index, slice_index_or, slice_set};
ghost use Rattle.trial_buffers.specs.Memory.{cell_from, length_at, Each, Makes, given};

// The number in a cell, and 0 past the last.
pub fn cell(memory: &[u32], at: usize) -> u32
    ensures { result ≡ slice_index memory.now at }
{
    memory.get(at).copied().unwrap_or(0)
}

// Writes a number to a cell, if there is one.
pub fn set_cell(memory: &mut [u32], at: usize, number: u32)
    ensures { memory.new ≡ slice_set memory.old at number }
{
    if at < memory.len() {
        memory[at] = number;
    }
}

// The length in a cell, and no more than `most`.
pub fn length_in(memory: &[u32], at: usize, most: usize) -> usize
    ensures { (result ≡ length_at memory.now at most) × (result ≤ most) }
{
    (cell(memory, at) as usize).min(most)
}

// Fills the row with what f makes of the numbers in the cells.
fn take<T: Copy, F: Fn(u32) -> T>(memory: &[u32], at: usize, row: &mut [T], f: F)
    requires { F.IsAlwaysCallable f }
    ensures { (k : ℕ) (d : T) → k < length row.new
        → F.post f (slice_index memory.now (cell_from at k)) (slice_index_or row.new k d) }
{
    for (i, x) in row.iter_mut().enumerate() {
        *x = f(cell(memory, at.wrapping_add(i)));
    }
}

// Fills the row from the cells.
pub fn take_numbers(memory: &[u32], at: usize, row: &mut [u32])
    ensures { Each (λ k. slice_index memory.now (cell_from at k)) row.new }
{
    take(memory, at, row, |n| n);
}

pub fn take_bytes(memory: &[u32], at: usize, row: &mut [u8])
    ensures { Each (λ k. slice_index memory.now (cell_from at k) % 256) row.new }
{
    take(memory, at, row, |n| (n % 256) as u8);
}

// Writes to the cells the numbers that f makes of the row.
#[tactic(auto, unfolding(crate::specs::Memory::given))]
fn give<T: Copy, F: Fn(T) -> u32>(memory: &mut [u32], at: usize, row: &[T], f: F)
    requires { F.IsAlwaysCallable f }
    ensures { (numbers : List ℕ) → Makes (F.post f) row.now numbers
        → memory.new ≡ given memory.old at numbers (length row.now) }
{
    for (i, x) in row.iter().enumerate() {
        set_cell(&mut *memory, at.wrapping_add(i), f(*x));
    }
}

// Writes the row to the cells.
pub fn give_numbers(memory: &mut [u32], at: usize, row: &[u32])
    ensures { memory.new ≡ given memory.old at row.now (length row.now) }
{
    give(memory, at, row, |n| n);
}

pub fn give_bytes(memory: &mut [u32], at: usize, row: &[u8])
    ensures { memory.new ≡ given memory.old at row.now (length row.now) }
{
    give(memory, at, row, |b| u32::from(b));
}

// Fills the row with one number.
pub fn fill(row: &mut [u32], number: u32)
    ensures { Each (λ _. number) row.new }
{
    row.fill(number);
}
