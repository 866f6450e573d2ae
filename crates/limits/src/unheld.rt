// "A digest that no held certificate has or names, and a key that is not held, give the empty or absent answer, except that any key
// stands over itself at Admin." No buffer is touched, and none is needed. Then the same of the empty set.
ghost use Rattle.queries.specs.Evaluated.{GoodEvaluated};

use crate::argument::Argument;
use crate::certificate::{reading, revocation};
use crate::{asked, lists_of, parts, small};
use keyline::limits::DIGEST_LENGTH;
use keyline_memory::state::State;
use queries::evaluated::Evaluated;
use std::io;

// A key's number over another one's.
fn powers(rt: &impl Print, e: &Evaluated, keys: &[(u8, u8)]) -> io::Result<()>
    requires { GoodEvaluated e.now }
{
    for (subject, audience) in keys {
        asked::powers(
            rt,
            e,
            &Argument::whole(*subject),
            &Argument::whole(*audience),
        )?;
    }
    Ok(())
}

// No key and no digest 200 is held or named.
fn all(rt: &impl Print, s: &State, room: usize) -> io::Result<()> {
    let unheld = Argument::whole(200);
    asked::contains(rt, s, &unheld)?;
    for certificate in [reading(200, 1, 2, 1), revocation(200, 1, 11)] {
        parts::look(rt, s, &certificate, DIGEST_LENGTH, (room, room))?;
    }
    lists_of::revocations_of(rt, s, &unheld, room)?;
    for (subject, audience) in [(200, 3), (1, 200), (200, 200)] {
        let subject = Argument::whole(subject);
        let audience = Argument::whole(audience);
        lists_of::delegations_to(rt, s, &subject, &audience, room)?;
    }
    let e = s.evaluate();
    asked::delegation(rt, &e, &unheld)?;
    powers(
        rt,
        &e,
        &[(200, 200), (200, 1), (1, 200), (200, 201), (1, 1)],
    )?;
    lists_of::closure(rt, &e, &unheld, room)?;
    lists_of::members(rt, &e, &unheld, (room, room))
}

fn counts(rt: &impl Print, s: &State) -> io::Result<()> {
    let len = s.len();
    let is_empty = u8::from(s.is_empty());
    let version = s.version();
    println!(rt; "  len {len}, is_empty {is_empty}, version {version}")
}

// Key 9 only revokes, key 4 is the audience of a dead delegation, and no digest of the other kind is meant.
fn held_without(rt: &impl Print, e: &Evaluated) -> io::Result<()>
    requires { GoodEvaluated e.now }
{
    powers(rt, e, &[(1, 9), (1, 4)])?;
    asked::delegation(rt, e, &Argument::whole(20))?;
    lists_of::closure(rt, e, &Argument::whole(9), 0)?;
    lists_of::members(rt, e, &Argument::whole(9), (0, 0))
}

fn in_small(rt: &impl Print) -> io::Result<()> {
    println!(rt; "not held, in the small set")?;
    let s = small::set();
    counts(rt, &s)?;
    all(rt, &s, 0)?;
    all(rt, &s, 100)?;
    held_without(rt, &s.evaluate())
}

fn in_nothing(rt: &impl Print) -> io::Result<()> {
    println!(rt; "the empty set")?;
    let s = State::new();
    counts(rt, &s)?;
    lists_of::subjects(rt, &s, 0)?;
    lists_of::certificates(rt, &s, 0)?;
    all(rt, &s, 0)
}

pub(crate) fn cases(rt: &impl Print) -> io::Result<()> {
    in_small(rt)?;
    in_nothing(rt)
}
