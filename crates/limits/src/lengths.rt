// Every argument of every call at 0, 31 and 33 bytes: 1 with its length, "the first in the order named", and before 9.
// In the small set each call with its arguments at 32 bytes has an answer other than a refusal; the lists would have items.
ghost use Rattle.queries.specs.Evaluated.{GoodEvaluated};

use crate::argument::Argument;
use crate::certificate::{Certificate, revocation};
use crate::{asked, insert, lists_of, parts, small};
use keyline_memory::state::State;
use queries::evaluated::Evaluated;
use std::io;

// No key and no digest has one of these.
const WRONG: [usize; 3] = [0, 31, 33];

// The lengths of two keys: wrong one at a time, and both, where the first one is refused.
const PAIRS: [(usize, usize); 7] = [
    (0, 32),
    (31, 32),
    (33, 32),
    (32, 0),
    (32, 31),
    (32, 33),
    (31, 33),
];

// Digest, issuer and payload. The payload's length is no refusal 1, and is looked at last.
const DELEGATIONS: [[usize; 3]; 12] = [
    [0, 32, 98],
    [31, 32, 98],
    [33, 32, 98],
    [32, 0, 98],
    [32, 31, 98],
    [32, 33, 98],
    [31, 33, 0],
    [32, 33, 0],
    [32, 32, 0],
    [32, 32, 65],
    [32, 32, 97],
    [32, 32, 98],
];

// Digest, issuer and the digest revoked.
const REVOCATIONS: [[usize; 3]; 12] = [
    [0, 32, 32],
    [31, 32, 32],
    [33, 32, 32],
    [32, 0, 32],
    [32, 31, 32],
    [32, 33, 32],
    [32, 32, 0],
    [32, 32, 31],
    [32, 32, 33],
    [31, 33, 0],
    [32, 33, 0],
    [32, 32, 32],
];

// Digest 40 is held as a delegation and as a revocation, with other content, and no table has room: lengths and payload come first.
const DELEGATIONS_WHEN_FULL: [[usize; 3]; 4] = [
    [31, 33, 0],
    [32, 33, 0],
    [32, 32, 97],
    [32, 32, 98],
];

const REVOCATIONS_WHEN_FULL: [[usize; 3]; 4] = [
    [31, 33, 0],
    [32, 33, 0],
    [32, 32, 0],
    [32, 32, 32],
];

// A delegation of digest 40, which the small set does not hold, by key 1.
fn delegation() -> Certificate {
    Certificate {
        digest: 40,
        issuer: 1,
        ..small::cited()
    }
}

// Each into the same set.
fn insertions(
    rt: &impl Print,
    s: &State,
    certificate: &Certificate,
    lengths: &[[usize; 3]],
) -> io::Result<()> {
    let kind = certificate.content.kind();
    for [digest, issuer, third] in lengths {
        let mut after = *s;
        let answer = certificate.insert(&mut after, [*digest, *issuer, *third]);
        print!(rt; "  insert_{kind} {digest} {issuer} {third}")?;
        insert::outcome(rt, answer, &after)?;
    }
    Ok(())
}

fn questions(rt: &impl Print, s: &State) -> io::Result<()> {
    for (digest, length) in [(10, 0), (10, 31), (10, 33), (10, 32), (20, 32)] {
        asked::contains(rt, s, &Argument::of(digest, length))?;
    }
    let e = s.evaluate();
    for length in [0, 31, 33, 32] {
        asked::delegation(rt, &e, &Argument::of(10, length))?;
    }
    for (subject, audience) in PAIRS {
        asked::powers(
            rt,
            &e,
            &Argument::of(1, subject),
            &Argument::of(2, audience),
        )?;
    }
    // Also where subject and audience are the same bytes, of a length that no key has.
    asked::powers(rt, &e, &Argument::of(1, 31), &Argument::of(1, 31))?;
    asked::powers(rt, &e, &Argument::whole(1), &Argument::whole(2))
}

// With room for nothing, and with room for all.
fn into_room(rt: &impl Print, s: &State, room: usize) -> io::Result<()> {
    for certificate in [small::edit(), revocation(20, 8, 11)] {
        for length in WRONG {
            parts::look(rt, s, &certificate, length, (room, room))?;
        }
    }
    for length in WRONG {
        lists_of::revocations_of(rt, s, &Argument::of(11, length), room)?;
    }
    for (subject, audience) in PAIRS {
        let subject = Argument::of(1, subject);
        let audience = Argument::of(3, audience);
        lists_of::delegations_to(rt, s, &subject, &audience, room)?;
    }
    evaluated_into_room(rt, &s.evaluate(), room)
}

fn evaluated_into_room(rt: &impl Print, e: &Evaluated, room: usize) -> io::Result<()>
    requires { GoodEvaluated e.now }
{
    for length in WRONG {
        lists_of::closure(rt, e, &Argument::of(1, length), room)?;
    }
    for length in WRONG {
        lists_of::members(rt, e, &Argument::of(1, length), (room, room))?;
    }
    Ok(())
}

// The set is the full one.
pub(crate) fn cases(rt: &impl Print, s: &State) -> io::Result<()> {
    println!(rt; "lengths in the full set")?;
    insertions(rt, s, &delegation(), &DELEGATIONS_WHEN_FULL)?;
    insertions(rt, s, &revocation(40, 1, 41), &REVOCATIONS_WHEN_FULL)?;
    println!(rt; "lengths in the small set")?;
    let s = small::set();
    insertions(rt, &s, &delegation(), &DELEGATIONS)?;
    insertions(rt, &s, &revocation(40, 1, 41), &REVOCATIONS)?;
    questions(rt, &s)?;
    into_room(rt, &s, 0)?;
    into_room(rt, &s, 100)
}
