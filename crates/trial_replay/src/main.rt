// Plays a text of calls with what each must give: crates/trial_replay/stdin. README.md has its format, and how it was made.
#![tactic(auto)]

mod calls; // calls.rt: the eight calls on a memory
mod lines; // lines.rt: a line of the text
mod report; // report.rt: what is printed

use calls::{LOAD, LOAD_ROOM};
use lines::{Turn, play_line};
use report::{end_list, print_difference, print_unreadable};
use std::io;
use trial_buffers::reader::read_number;
use trial_buffers::tally::{Tally, no_calls};

// The cells of a memory: those of the load are the last.
const CELLS: usize = LOAD + LOAD_ROOM;

// The cells before those of the load, which are not saved.
const SAVED: usize = LOAD;

// Room for the text.
const TEXT: usize = 1000000;

// The line that ends a list.
const END: u32 = 7;

// How far the text was played: the tally of the list, and the place of the next line.
#[derive(Clone, Copy)]
struct Progress {
    tally: Tally,
    at: usize,
}

// The end of a list, whose tally is printed, if it could be read.
fn ended(rt: &impl Print, text: &[u8], at: usize, tally: Tally) -> io::Result<Option<Progress>> {
    let ended = end_list(rt, text, at, tally);
    ended.printed?;
    Ok(
        ended.end.ok.then_some(Progress {
            tally: no_calls(),
            at: ended.end.at,
        }),
    )
}

// A line that was played, if it could be read.
fn played(rt: &impl Print, turn: Turn, tally: Tally, line: usize) -> io::Result<Option<Progress>> {
    if turn.differences != 0 {
        print_difference(rt, line)?;
    }
    Ok(
        turn.ok.then_some(Progress {
            tally: tally.with(turn.calls, turn.differences),
            at: turn.at,
        }),
    )
}

// Plays one line, if it can be read.
fn step(
    rt: &impl Print,
    text: &[u8],
    before: Progress,
    line: usize,
    memory: &mut [u32],
    expected: &mut [u32],
    saved: &mut [u32],
) -> io::Result<Option<Progress>> {
    let first = read_number(text, before.at);
    match first.value {
        None => Ok(None),
        Some(END) => ended(rt, text, first.at, before.tally),
        Some(which) => {
            let turn = play_line(text, which, first.at, memory, expected, saved);
            played(rt, turn, before.tally, line)
        }
    }
}

// Plays the text: it has at most as many lines as bytes.
fn play(
    rt: &impl Print,
    text: &[u8],
    memory: &mut [u32],
    expected: &mut [u32],
    saved: &mut [u32],
) -> io::Result<()> {
    let mut progress = Progress {
        tally: no_calls(),
        at: 0,
    };
    for line in 1..=text.len() {
        if text.len() <= progress.at {
            return Ok(());
        }
        let next = step(
            rt,
            text,
            progress,
            line,
            &mut *memory,
            &mut *expected,
            &mut *saved,
        )?;
        progress = match next {
            Some(next) => next,
            None => return print_unreadable(rt, line),
        };
    }
    Ok(())
}

// Plays the text on memories that hold zeros.
fn play_text(rt: &impl Print, text: &[u8]) -> io::Result<()> {
    let mut memory = [0u32; CELLS];
    let mut expected = [0u32; CELLS];
    let mut saved = [0u32; SAVED];
    play(rt, text, &mut memory, &mut expected, &mut saved)
}

// Plays what standard input has, as far as there is room for it.
fn play_input(rt: &HostRuntime, room: &mut [u8]) -> io::Result<()> {
    let n = edge_input::read_full(&mut rt.stdin(), &mut *room)?;
    play_text(rt, &room[..n])
}

fn main(rt: HostRuntime) -> io::Result<()> {
    let mut room = [0u8; TEXT];
    play_input(&rt, &mut room)
}
