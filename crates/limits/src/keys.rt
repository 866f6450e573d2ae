// The 64th and the 65th key: "keys full: 8, exactly when held keys plus the distinct new ones exceed 64".
use crate::certificate::{reading, revocation};
use crate::fill::Kind;
use crate::{fill, insert};
use std::io;

// Into sets of 61 to 64 keys, each certificate into the same set.
fn into_sets(rt: &impl Print) -> io::Result<()> {
    let certificates = [
        // Keys from 200 on are new: none, and one.
        reading(100, 0, 1, 0),
        reading(100, 200, 0, 0),
        reading(100, 0, 200, 0),
        reading(100, 0, 0, 200),
        reading(100, 200, 200, 200),
        // Two, and three.
        reading(100, 200, 201, 0),
        reading(100, 0, 200, 201),
        reading(100, 200, 201, 200),
        reading(100, 200, 201, 202),
        // A revocation brings its issuer, and not the digest that it names.
        revocation(100, 0, 200),
        revocation(100, 200, 1),
    ];
    // A star of n delegations has n + 1 keys.
    for n in 60..64 {
        println!(rt; "into a set of keys: {}", n + 1)?;
        let s = fill::only(Kind::Star, n);
        insert::each(rt, &s, &certificates)?;
    }
    Ok(())
}

// A refusal leaves the set as it was: the next insertion finds as much room as before.
fn one_after_the_other(rt: &impl Print) -> io::Result<()> {
    println!(rt; "one after the other, from 62 keys")?;
    let mut s = fill::only(Kind::Star, 61);
    let certificates = [
        reading(100, 200, 201, 202),
        reading(100, 200, 201, 0),
        reading(101, 202, 0, 0),
        revocation(100, 202, 1),
        reading(101, 201, 200, 0),
        revocation(100, 201, 1),
    ];
    insert::in_turn(rt, &mut s, &certificates)
}

pub(crate) fn cases(rt: &impl Print) -> io::Result<()> {
    into_sets(rt)?;
    one_after_the_other(rt)
}
