// The lines of a file, one after the other.
ghost use Rattle.std.specs.Prelude.{◌≡◌, ◌≤◌, length};
ghost use Rattle.dictionary_layout.specs.Values.{contents};
ghost use Rattle.ntriples.specs.Reading.{lines};
ghost use Rattle.driver_read.specs.Lines.{Work, Between, LineEnds, line_comes, lines_come, ComesTo};

use crate::triple::read_triple;
use crate::values::{ReadNext, read_next};
use ntriples_lines::{LINE_LIMIT, Said, line};

// Where the line that begins at a place ends: at the next end of a line, or of the file.
fn line_end(file: &[u8], at: usize) -> usize
    requires { at ≤ length file.now }
    ensures { LineEnds file.now at result }
{
    for end in at..file.len() {
        if matches!(file[end], b'\n' | b'\r') {
            return end;
        }
    }
    file.len()
}

// One line, without its end, behind those read before it.
fn read_line(
    table: &mut [u32],
    arena: &mut [u8],
    hash: &mut [u32],
    load: &mut [u32],
    next: ReadNext,
    bytes: &[u8],
    chars: &mut [u32],
    out: &mut [u8],
) -> ReadNext
    requires { Between table.old arena.old hash.old load.old next × Work chars.old out.old }
    ensures { ComesTo (line_comes (contents table.old arena.old next.counters) load.old
        next.count bytes.now) (contents table.old arena.old next.counters)
        table.new arena.new hash.new load.new result }
{
    let c = next.counters;
    if LINE_LIMIT < bytes.len() {
        return read_next(14, next.count, c);
    }
    match line(bytes, &mut *chars, &mut *out) {
        Some(Said::Nothing) => read_next(0, next.count, c),
        Some(Said::Triple(t)) => read_triple(table, arena, hash, load, next, &*out, t),
        None => read_next(13, next.count, c),
    }
}

// All lines, up to the first that is refused.
pub fn read_lines(
    table: &mut [u32],
    arena: &mut [u8],
    hash: &mut [u32],
    load: &mut [u32],
    first: ReadNext,
    file: &[u8],
    chars: &mut [u32],
    out: &mut [u8],
) -> ReadNext
    requires { Between table.old arena.old hash.old load.old first × Work chars.old out.old × (first.number ≡ 0) }
    ensures { ComesTo (lines_come (contents table.old arena.old first.counters) load.old
        first.count (lines file.now)) (contents table.old arena.old first.counters)
        table.new arena.new hash.new load.new result }
{
    let mut next = first;
    let mut at = 0;
    while at <= file.len() {
        let end = line_end(file, at);
        next = read_line(
            &mut *table,
            &mut *arena,
            &mut *hash,
            &mut *load,
            next,
            &file[at..end],
            &mut *chars,
            &mut *out,
        );
        if next.number != 0 {
            return next;
        }
        at = end + 1;
    }
    next
}
