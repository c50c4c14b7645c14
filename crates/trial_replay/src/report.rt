// What the program prints.
ghost use Rattle.std.specs.Prelude.{◌≡◌, length};
ghost use Rattle.trial_buffers.specs.Reading.{cursor_after, is_byte};
ghost use Rattle.trial_replay.specs.Text.{name_limit, list_end};

use std::io;
use trial_buffers::reader::{Cursor, read_bytes, read_number};
use trial_buffers::tally::Tally;

// The longest name of a list.
const NAME_LIMIT: usize = 60;

fn print_line(rt: &impl Print, what: &str, line: usize) -> io::Result<()> {
    println!(rt; "{what}{line}")
}

pub(crate) fn print_difference(rt: &impl Print, line: usize) -> io::Result<()> {
    print_line(rt, "not as said after line ", line)
}

pub(crate) fn print_unreadable(rt: &impl Print, line: usize) -> io::Result<()> {
    print_line(rt, "cannot read line ", line)
}

// The name is bytes that need not be text.
fn print_list(rt: &impl Print, name: &[u8], tally: Tally) -> io::Result<()> {
    let calls = tally.calls;
    let differences = tally.differences;
    rt.write_all(name)?;
    println!(rt; ": calls {calls}, differences {differences}")
}

// The place after a line that ends a list, and whether what it prints could be printed. No Result of the place: it is said too where
// printing failed.
#[derive(Drop)]
pub struct Ended {
    pub end: Cursor,
    pub printed: io::Result<()>,
}

fn end_named(rt: &impl Print, text: &[u8], from: Cursor, name: &mut [u8], tally: Tally) -> Ended
    ensures { result.end ≡ cursor_after is_byte text.now from (length name.old) }
{
    let end = read_bytes(text, from, &mut *name);
    let printed = if end.ok {
        print_list(rt, &*name, tally)
    } else {
        Ok(())
    };
    Ended { end, printed }
}

fn end_in(rt: &impl Print, text: &[u8], at: usize, room: &mut [u8], tally: Tally) -> Ended
    ensures { result.end ≡ list_end text.now at (length room.old) }
{
    let length = read_number(text, at);
    let n = length.value.unwrap_or(0) as usize;
    if room.len() < n {
        return Ended {
            end: Cursor { at, ok: false },
            printed: Ok(()),
        };
    }
    let from = Cursor {
        at: length.at,
        ok: length.value.is_some(),
    };
    end_named(rt, text, from, &mut room[..n], tally)
}

// The line that ends a list: its name, and what it showed.
pub fn end_list(rt: &impl Print, text: &[u8], at: usize, tally: Tally) -> Ended
    ensures { result.end ≡ list_end text.now at name_limit }
{
    let mut room = [0u8; NAME_LIMIT];
    end_in(rt, text, at, &mut room, tally)
}
