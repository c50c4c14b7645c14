// Starts in buffers of many lengths. A line of standard input has the lengths of table and arena, the number that is said of a start in
// them, and 0 where it must give that number, or 1 where it must not: a comparison that tests nothing so shows as a difference. The cases
// with 0 are both sides of each limit of the lengths, REFERENCE 3.1, and of the room that the start's terms need; those with 1 name
// another number for starts of each kind. A case that differs is named.
#![tactic(auto)]

mod starts; // starts.rt: a start, held to what is said of it

use starts::starts;
use std::io;
use trial_buffers::reader::read_number;

// Room for the cases.
const TEXT: usize = 2000;

// In place of a refusal: the start is accepted, and a term that is put is found again.
const FOUND: u32 = 13;

// A case: whether it came out as said, and the place after it.
#[derive(Clone, Copy)]
struct Case {
    at: usize,
    agrees: bool,
}

// Plays the case that begins at a place, if its four numbers can be read.
fn play(text: &[u8], at: usize) -> Option<Case> {
    let t = read_number(text, at);
    let a = read_number(text, t.at);
    let number = read_number(text, a.at);
    let differs = read_number(text, number.at);
    let n = number.value?;
    let agrees = starts(t.value? as usize, a.value? as usize, n, n == FOUND);
    Some(Case {
        at: differs.at,
        agrees: agrees != (differs.value? == 1),
    })
}

fn print_case(rt: &impl Print, what: &str, case: usize) -> io::Result<()> {
    println!(rt; "{what}{case}")
}

// Plays the cases, of which there are at most as many as bytes.
fn play_text(rt: &impl Print, text: &[u8]) -> io::Result<()> {
    let mut at = 0;
    for case in 0..text.len() {
        if text.len() <= at {
            return print_case(rt, "starts: ", case);
        }
        let Some(played) = play(text, at) else {
            return print_case(rt, "cannot read case ", case + 1);
        };
        at = played.at;
        if !played.agrees {
            print_case(rt, "not as said: case ", case + 1)?;
        }
    }
    Ok(())
}

fn main(rt: HostRuntime) -> io::Result<()> {
    let mut text = [0u8; TEXT];
    let n = edge_input::read_full(&mut rt.stdin(), &mut text)?;
    play_text(&rt, &text[..n])
}
