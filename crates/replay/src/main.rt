// Replays vector files (oracle/VECTORS.md) from standard input: each store is built again by insertions, and every answer of a block is held
// against what the kernel says. The first difference is named by its line, and the last line of the output has the counts. That line is the
// verdict: all is well where it ends in '0 differ, 0 malformed'. The exit status says only whether the input could be read.
#![tactic(auto)]

use frame::Kept;
use session::Session;
use std::io;

mod block;
mod certificates;
mod fields;
mod frame;
mod input;
mod kernel;
mod keys;
mod marks;
mod payload;
mod session;
mod tally;

fn replay<R: Input + Print + Clone + Drop>(rt: &R) -> io::Result<()> {
    let mut kept = Kept::new();
    let mut session = Session::new(rt.clone()?, &mut kept);
    input::read(rt.reader(), &mut session)?;
    session.report();
    Ok(())
}

fn main(rt: HostRuntime) -> io::Result<()> {
    replay(&rt)
}
