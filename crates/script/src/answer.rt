// A reply in its own part of the answers: the head, the first room, the second room. The first room is lent from the middle; the second
// begins as zeros in a buffer of its own, since two parts of one buffer are not lent at once.
ghost use Rattle.std.specs.Prelude.{◌≡◌, ◌+◌, ◌≤◌, length};
ghost use Rattle.wire.specs.Reply.{head_length, valued, inserted};
ghost use Rattle.wire.specs.Request.{Asked, other_limit, first_part, second_part};
ghost use Rattle.script.specs.Run.{room_in, zeros, inPlace, Placed};

use crate::ask::Answer;
use keyline::refusal::Refusal;
use tables::answer::Outcome;
use wire::reply;
use wire::reply::{HEAD, Reply};
use wire::request::{HEADER, Request};

// The largest second room.
const OTHER_LIMIT: usize = 255;

// The head and the second room; the first stays as it is.
pub fn put(out: &mut [u8], room: usize, r: Reply, other: &[u8])
    requires { length out.old ≡ head_length + room + length other.now }
    ensures { out.new ≡ inPlace r (room_in room out.old) other.now }
{
    let head = reply::head(r);
    lent::bytes::put_at(out, 0, &head);
    lent::bytes::put_at(out, HEAD + room, other);
}

fn answer_in<A: Answer>(
    asked: &A,
    what: A::Question,
    x: &[u8],
    y: &[u8],
    room: usize,
    out: &mut [u8],
    other: &mut [u8],
)
    requires good { A.good asked.now }
    requires long { length out.old ≡ head_length + room + length other.old }
    ensures { Placed (A.answers asked.now what x.now y.now (room_in room out.old) other.old) out.new }
{
    let r = asked.answer(what, x, y, &mut out[HEAD..HEAD + room], other);
    put(out, room, r, other);
}

// The reply of a question to the set, or to the evaluated set.
pub fn answer_asked<A: Answer>(
    asked: &A,
    what: A::Question,
    q: Request,
    script: &[u8],
    out: &mut [u8],
)
    requires good { A.good asked.now }
    requires fits { Asked q script.now out.old }
    ensures { Placed (A.answers asked.now what (first_part script.now) (second_part script.now) (room_in q.room out.old) (zeros q.other)) out.new }
{
    let mut second = [0u8; OTHER_LIMIT];
    let a = HEADER + q.first;
    let b = a + q.second;
    answer_in(
        asked,
        what,
        &script[HEADER..a],
        &script[a..b],
        q.room,
        out,
        &mut second[..q.other],
    );
}

// The reply of an operation that writes to no room.
fn answer_plain(r: Reply, room: usize, other: usize, out: &mut [u8])
    requires { (length out.old ≡ head_length + room + other) × (other ≤ other_limit) }
    ensures { out.new ≡ inPlace r (room_in room out.old) (zeros other) }
{
    let second = [0u8; OTHER_LIMIT];
    put(out, room, r, &second[..other]);
}

// The reply of an operation that is always done.
pub fn answer_done(q: Request, out: &mut [u8])
    requires { (length out.old ≡ head_length + q.room + q.other) × (q.other ≤ other_limit) }
    ensures { out.new ≡ inPlace (valued 0) (room_in q.room out.old) (zeros q.other) }
{
    answer_plain(reply::valued(0), q.room, q.other, out);
}

pub fn answer_inserted(told: Result<Outcome, Refusal>, q: Request, out: &mut [u8])
    requires { (length out.old ≡ head_length + q.room + q.other) × (q.other ≤ other_limit) }
    ensures { out.new ≡ inPlace (inserted told) (room_in q.room out.old) (zeros q.other) }
{
    answer_plain(Reply::from(told), q.room, q.other, out);
}
