// A line of the text: what it does to the memories, and what it shows.
ghost use Rattle.std.specs.Prelude.{◌≡◌, true, ◌≤◌};
ghost use Rattle.trial_replay.specs.Text.{cells_from, span_from, edited, written, filled, edits, edited_by, difference};
ghost use Rattle.trial_replay.specs.Text.{called, call_made, memories, kept_by, played, quiet_turn, line_played};

use crate::calls::make;
use trial_buffers::memory::{fill, take_numbers};
use trial_buffers::reader::{Cursor, read_number, read_row};

// What a line showed: calls and differences, the place after it, and whether it could be read. No Option: the rest is said too where a
// number of the line could not be read.
#[derive(Clone, Copy)]
pub struct Turn {
    pub at: usize,
    pub ok: bool,
    pub calls: u32,
    pub differences: u32,
}

// Cells of a memory, the place in the text after their numbers, and whether these could be read and the memory has the cells. No Option:
// the place, and the cells that unread numbers name, are said as well.
#[derive(Clone, Copy)]
struct Span {
    first: usize,
    end: usize,
    at: usize,
    ok: bool,
}

// The cells that a first cell and a number of cells name, if the memory has them.
#[tactic(auto, unfolding(crate::specs::Text::cells_from))]
fn cells_from(first: usize, n: usize, at: usize, ok: bool, cells: usize) -> Span
    ensures { (result ≡ cells_from first n at ok cells) × (result.first ≤ result.end) × (result.end ≤ cells) }
{
    if cells < first || cells - first < n {
        return Span {
            first: 0,
            end: 0,
            at,
            ok: false,
        };
    }
    Span {
        first,
        end: first + n,
        at,
        ok,
    }
}

fn read_span(text: &[u8], at: usize, cells: usize) -> Span
    ensures { (result ≡ span_from text.now at cells) × (result.first ≤ result.end) × (result.end ≤ cells) }
{
    let first = read_number(text, at);
    let n = read_number(text, first.at);
    let a = first.value.unwrap_or(0) as usize;
    let count = n.value.unwrap_or(0) as usize;
    let ok = first.value.is_some() && n.value.is_some();
    cells_from(a, count, n.at, ok, cells)
}

// Writes the numbers of a line to its cells.
fn write_cells(text: &[u8], at: usize, memory: &mut [u32]) -> Cursor
    ensures { edited result memory.new ≡ written text.now at memory.old }
{
    let s = read_span(text, at, memory.len());
    let first = s.first;
    let end = s.end;
    let from = Cursor { at: s.at, ok: s.ok };
    read_row(text, from, &mut memory[first..end])
}

// Fills the cells of a line with its number.
fn fill_cells(text: &[u8], at: usize, memory: &mut [u32]) -> Cursor
    ensures { edited result memory.new ≡ filled text.now at memory.old }
{
    let s = read_span(text, at, memory.len());
    let first = s.first;
    let end = s.end;
    let number = read_number(text, s.at);
    fill(&mut memory[first..end], number.value.unwrap_or(0));
    Cursor {
        at: number.at,
        ok: s.ok && number.value.is_some(),
    }
}

// Lines 0 to 3: cells of both memories or of the expected one.
#[tactic(auto, unfolding(crate::specs::Text::edited_by))]
fn edit(line: u32, text: &[u8], at: usize, memory: &mut [u32], expected: &mut [u32]) -> Cursor
    ensures { edits result memory.new expected.new
        ≡ edited_by line text.now at memory.old expected.old }
{
    match line {
        0 => {
            write_cells(text, at, memory);
            write_cells(text, at, expected)
        }
        1 => write_cells(text, at, expected),
        2 => {
            fill_cells(text, at, memory);
            fill_cells(text, at, expected)
        }
        _ => fill_cells(text, at, expected),
    }
}

// Whether the memories are not as a line says: they have to be the same for 0, and to differ for 1.
fn is_difference(agrees: bool, differs: u32) -> bool
    ensures { result ≡ difference agrees differs }
{
    agrees == (differs == 1)
}

// Line 4: a call, and whether the memories are then as it says.
fn call(text: &[u8], at: usize, memory: &mut [u32], expected: &[u32]) -> Turn
    ensures { called result memory.new ≡ call_made text.now at memory.old expected.now }
{
    let number = read_number(text, at);
    let differs = read_number(text, number.at);
    let which = number.value.unwrap_or(0);
    make(which, &mut *memory);
    let agrees = *memory == *expected;
    let difference = is_difference(agrees, differs.value.unwrap_or(0));
    let ok = number.value.is_some() && differs.value.is_some();
    Turn {
        at: differs.at,
        ok,
        calls: u32::from(which < 8),
        differences: u32::from(difference),
    }
}

// Another line, 5 or 6: the memory is saved, or both are again as it was, with zeros for the load.
fn keep(line: u32, at: usize, memory: &mut [u32], expected: &mut [u32], saved: &mut [u32]) -> Cursor
    ensures { (result ≡ record { at = at; ok = true })
        × (memories memory.new expected.new saved.new
        ≡ kept_by line (memories memory.old expected.old saved.old)) }
{
    if line == 5 {
        take_numbers(&*memory, 0, saved);
    } else {
        take_numbers(&*saved, 0, memory);
        take_numbers(&*saved, 0, expected);
    }
    Cursor { at, ok: true }
}

// A line without a call.
fn quiet(end: Cursor) -> Turn
    ensures { result ≡ quiet_turn end }
{
    Turn {
        at: end.at,
        ok: end.ok,
        calls: 0,
        differences: 0,
    }
}

// The line whose first number is `which`, and was read.
#[tactic(auto, unfolding(crate::specs::Text::line_played))]
pub fn play_line(
    text: &[u8],
    which: u32,
    at: usize,
    memory: &mut [u32],
    expected: &mut [u32],
    saved: &mut [u32],
) -> Turn
    ensures { played result (memories memory.new expected.new saved.new)
        ≡ line_played text.now (record { value = which; at = at; ok = true })
        (memories memory.old expected.old saved.old) }
{
    match which {
        0..=3 => quiet(edit(which, text, at, memory, expected)),
        4 => call(text, at, memory, &*expected),
        _ => quiet(keep(which, at, memory, expected, saved)),
    }
}
