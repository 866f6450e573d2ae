// Document 01's "Run as tests" for the store, one line a case: the limits of the tables, and every call's lengths and buffers.
// The file stdout beside src/ says what each line must be; it is written from document 01, not from a run.
#![tactic(auto)]

mod answered;
mod argument;
mod asked;
mod buffers;
mod certificate;
mod fill;
mod full;
mod insert;
mod keys;
mod lengths;
mod lists_of;
mod parts;
mod room;
mod small;
mod unheld;

use output::Output;
use std::io;

fn cases(out: &impl Print) -> io::Result<()> {
    let full = fill::full();
    keys::cases(out)?;
    full::cases(out, &full)?;
    buffers::cases(out, &full)?;
    parts::cases(out)?;
    lengths::cases(out, &full)?;
    unheld::cases(out)
}

fn main(rt: HostRuntime) {
    // Output hands on no failed write, so no case fails.
    let _ = cases(&Output(&rt));
}
