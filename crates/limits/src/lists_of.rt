// One line for each call that fills a buffer with a list. The call is lent the first bytes of a space that is filled before.
ghost use Rattle.queries.specs.Evaluated.{GoodEvaluated};

use crate::answered;
use crate::answered::Answered;
use crate::argument::Argument;
use crate::room::{BEFORE, Items, touched};
use keyline_memory::state::State;
use queries::evaluated::Evaluated;
use std::io;

// More than the longest list has: 128 delegations and 64 revocations.
const SPACE: usize = 6200;

// More than the powers of 63 members.
const POWERS: usize = 100;

// Behind the call's name and arguments: the room, the answer, the items, and how many bytes of the space were touched.
fn into_room<F: FnOnce(&mut [u8]) -> Answered>(
    rt: &impl Print,
    room: usize,
    call: F,
) -> io::Result<()>
    requires { F.IsAlwaysCallable call }
{
    let mut space = [BEFORE; SPACE];
    let answer = call(&mut space[..room.min(SPACE)]);
    print!(rt; ", room {room}: {answer}")?;
    items(rt, &space, answer.items())?;
    println!(rt; ", touched {}", touched(&space))
}

fn items(rt: &impl Print, space: &[u8], count: usize) -> io::Result<()> {
    if count == 0 {
        return Ok(());
    }
    print!(rt; ", items{}", Items { space, count })
}

pub(crate) fn subjects(rt: &impl Print, s: &State, room: usize) -> io::Result<()> {
    print!(rt; "  subjects")?;
    into_room(rt, room, |out| answered::listed(s.subjects(out)))
}

pub(crate) fn certificates(rt: &impl Print, s: &State, room: usize) -> io::Result<()> {
    print!(rt; "  certificates")?;
    into_room(rt, room, |out| answered::both_listed(s.certificates(out)))
}

pub(crate) fn revocations_of(
    rt: &impl Print,
    s: &State,
    target: &Argument,
    room: usize,
) -> io::Result<()> {
    print!(rt; "  revocations_of {target}")?;
    into_room(rt, room, |out| {
        answered::listed(s.revocations_of(target.as_slice(), out))
    })
}

pub(crate) fn delegations_to(
    rt: &impl Print,
    s: &State,
    subject: &Argument,
    audience: &Argument,
    room: usize,
) -> io::Result<()> {
    print!(rt; "  delegations_to {subject} {audience}")?;
    into_room(rt, room, |out| {
        answered::listed(s.delegations_to(subject.as_slice(), audience.as_slice(), out))
    })
}

pub(crate) fn closure(
    rt: &impl Print,
    e: &Evaluated,
    subject: &Argument,
    room: usize,
) -> io::Result<()>
    requires { GoodEvaluated e.now }
{
    print!(rt; "  closure {subject}")?;
    into_room(rt, room, |out| {
        answered::both_listed(e.closure(subject.as_slice(), out))
    })
}

// Keys in the first room, powers in the second one.
pub(crate) fn members(
    rt: &impl Print,
    e: &Evaluated,
    subject: &Argument,
    rooms: (usize, usize),
) -> io::Result<()>
    requires { GoodEvaluated e.now }
{
    let (room, other) = rooms;
    let mut keys = [BEFORE; SPACE];
    let mut powers = [BEFORE; POWERS];
    let answer = answered::listed(e.members(
        subject.as_slice(),
        &mut keys[..room.min(SPACE)],
        &mut powers[..other.min(POWERS)],
    ));
    print!(rt; "  members {subject}, rooms {room} and {other}: {answer}")?;
    items(rt, &keys, answer.items())?;
    letters(rt, &powers[..answer.items().min(POWERS)])?;
    println!(rt;
        ", touched {}, touched {}",
        touched(&keys),
        touched(&powers)
    )
}

fn letters(rt: &impl Print, powers: &[u8]) -> io::Result<()> {
    if powers.is_empty() {
        return Ok(());
    }
    print!(rt; ", powers ")?;
    for power in powers {
        print!(rt; "{}", char::from(*power))?;
    }
    Ok(())
}
