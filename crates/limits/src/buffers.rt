// Every list in a buffer one byte short, exact, and longer: 9 with the bytes needed, and then no byte is touched; or the items, and no byte
// behind them.
// A line has the items, each by the number that its 32 bytes are, and how many bytes of the whole space were touched.

use crate::argument::Argument;
use crate::fill::Kind;
use crate::{fill, lists_of, small};
use keyline_memory::state::State;
use std::io;

fn in_small(rt: &impl Print) -> io::Result<()> {
    println!(rt; "the small set")?;
    let s = small::set();
    for room in [95, 96, 97] {
        lists_of::subjects(rt, &s, room)?;
    }
    for room in [351, 352, 353] {
        lists_of::certificates(rt, &s, room)?;
    }
    for (target, room) in [(11, 63), (11, 64), (11, 65), (99, 31), (99, 32)] {
        lists_of::revocations_of(rt, &s, &Argument::whole(target), room)?;
    }
    for room in [63, 64, 65] {
        lists_of::delegations_to(rt, &s, &Argument::whole(1), &Argument::whole(3), room)?;
    }
    let e = s.evaluate();
    for (subject, room) in [(1, 255), (1, 256), (1, 257), (5, 63), (5, 64)] {
        lists_of::closure(rt, &e, &Argument::whole(subject), room)?;
    }
    // "When there are two buffers the first one's fit is tested first."
    for rooms in [(95, 3), (96, 2), (95, 2), (96, 3), (97, 4), (0, 0)] {
        lists_of::members(rt, &e, &Argument::whole(1), rooms)?;
    }
    Ok(())
}

// All of the keys are subjects.
fn in_full(rt: &impl Print, s: &State) -> io::Result<()> {
    println!(rt; "64 keys, 128 delegations, 64 revocations")?;
    for room in [2047, 2048] {
        lists_of::subjects(rt, s, room)?;
    }
    for room in [6143, 6144] {
        lists_of::certificates(rt, s, room)?;
    }
    Ok(())
}

fn in_long(rt: &impl Print) -> io::Result<()> {
    println!(rt; "128 delegations of one subject and audience, 64 revocations of one digest")?;
    let mut s = fill::only(Kind::Parallel, 128);
    fill::fill(&mut s, Kind::Named, 0..64);
    for room in [4095, 4096] {
        lists_of::delegations_to(rt, &s, &Argument::whole(0), &Argument::whole(1), room)?;
    }
    for room in [2047, 2048] {
        lists_of::revocations_of(rt, &s, &Argument::whole(7), room)?;
    }
    let e = s.evaluate();
    for room in [6143, 6144] {
        lists_of::closure(rt, &e, &Argument::whole(0), room)?;
    }
    Ok(())
}

// 63 members.
fn in_star(rt: &impl Print) -> io::Result<()> {
    println!(rt; "one subject, 63 audiences")?;
    let e = fill::only(Kind::Star, 63).evaluate();
    for rooms in [(2015, 63), (2016, 62), (2016, 63)] {
        lists_of::members(rt, &e, &Argument::whole(0), rooms)?;
    }
    Ok(())
}

// The set is the full one.
pub(crate) fn cases(rt: &impl Print, s: &State) -> io::Result<()> {
    in_small(rt)?;
    in_full(rt, s)?;
    in_long(rt)?;
    in_star(rt)
}
