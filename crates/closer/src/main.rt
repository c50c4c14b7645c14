// Program closer: reads a model from standard input and prints its closure with the findings, or why there is none.
#![tactic(auto)]

use std::io;

fn main(rt: HostRuntime) -> io::Result<()> {
    let mut input = [0u8; edge_closer_run::INPUT];
    let mut out = [0u8; edge_closer_text::OUTPUT];
    let n = edge_input::read_full(&mut rt.stdin(), &mut input)?;
    let end = edge_closer_run::close_read(&input, n, &mut out);
    rt.write_all(&out[..end])
}
