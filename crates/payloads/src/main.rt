// Document 01's "Run as tests" for delegation payloads, one line a case: what the reader finds, what the writer answers and leaves.
// The file stdout beside src/ says what each line must be; it is written from document 01, not from a run.
#![tactic(auto)]

mod reading;
mod refused;
mod sample;
mod writing;

use output::Output;
use std::io;

fn cases(out: &impl Print) -> io::Result<()> {
    reading::cases(out)?;
    writing::cases(out)
}

fn main(rt: HostRuntime) {
    // Output hands on no failed write, so no case fails.
    let _ = cases(&Output(&rt));
}
