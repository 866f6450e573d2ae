// The 128th and the 129th delegation, the 64th and the 65th revocation: 6 and 7, after "not added" and 5, before 8.

use crate::certificate::{delegation, reading, revocation};
use crate::fill::Kind;
use crate::{fill, insert};
use keyline_memory::state::State;
use std::io;

// 36 keys: there is room for more.
fn delegations(rt: &impl Print) -> io::Result<()> {
    println!(rt; "127 delegations, 36 keys")?;
    let mut s = fill::only(Kind::Grid, 127);
    let certificates = [
        reading(127, 0, 35, 3),
        reading(128, 0, 35, 3),
        reading(128, 200, 201, 202),
        reading(0, 0, 4, 0),
        reading(127, 0, 35, 3),
        // The grid's delegation 0 with one part other at a time; its issuer is 0, its audience 4, its subject 0.
        reading(0, 1, 4, 0),
        reading(0, 0, 5, 0),
        reading(0, 0, 4, 1),
        delegation(0, 0, 4, 0, b'E', None),
        delegation(0, 0, 4, 0, b'R', Some(1)),
        revocation(127, 200, 127),
    ];
    insert::in_turn(rt, &mut s, &certificates)
}

// Without a delegation, and with one key.
fn revocations(rt: &impl Print) -> io::Result<()> {
    println!(rt; "63 revocations, 1 key")?;
    let mut s = fill::only(Kind::Each, 63);
    let certificates = [
        revocation(63, 0, 127),
        revocation(64, 0, 128),
        revocation(64, 200, 128),
        revocation(0, 0, 64),
        revocation(63, 0, 127),
        // Revocation 0 with its issuer other, and with the digest that it names.
        revocation(0, 1, 64),
        revocation(0, 0, 65),
        reading(64, 0, 1, 0),
    ];
    insert::in_turn(rt, &mut s, &certificates)
}

// With 64 keys the tables' limits are still tested before the keys'.
fn delegations_and_keys(rt: &impl Print) -> io::Result<()> {
    println!(rt; "127 delegations, 64 keys")?;
    let mut s = fill::only(Kind::Ring, 127);
    let certificates = [
        reading(127, 200, 0, 0),
        reading(127, 200, 201, 202),
        reading(127, 63, 0, 63),
        reading(128, 63, 0, 63),
        reading(128, 200, 201, 202),
    ];
    insert::in_turn(rt, &mut s, &certificates)
}

fn revocations_and_keys(rt: &impl Print) -> io::Result<()> {
    println!(rt; "63 revocations, 128 delegations, 64 keys")?;
    let mut s = fill::only(Kind::Ring, 128);
    fill::fill(&mut s, Kind::Each, 0..63);
    let certificates = [
        revocation(63, 200, 127),
        revocation(63, 0, 127),
        revocation(64, 0, 128),
        revocation(64, 200, 128),
    ];
    insert::in_turn(rt, &mut s, &certificates)
}

// Nothing more is added; what is held is known by its content, and other content is a conflict, with new keys too.
fn everything(rt: &impl Print, s: &State) -> io::Result<()> {
    println!(rt; "64 revocations, 128 delegations, 64 keys")?;
    let certificates = [
        reading(0, 0, 1, 0),
        reading(63, 63, 0, 63),
        revocation(0, 0, 64),
        revocation(63, 0, 127),
        reading(128, 0, 1, 0),
        revocation(64, 0, 64),
        reading(127, 63, 0, 63),
        reading(0, 200, 201, 202),
        revocation(0, 200, 64),
        revocation(0, 0, 200),
    ];
    insert::each(rt, s, &certificates)
}

// The set is the full one.
pub(crate) fn cases(rt: &impl Print, s: &State) -> io::Result<()> {
    delegations(rt)?;
    revocations(rt)?;
    delegations_and_keys(rt)?;
    revocations_and_keys(rt)?;
    everything(rt, s)
}
