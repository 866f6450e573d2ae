// A request: a header of fixed length, then three arguments. The header has the operation, the arguments' lengths and the sizes of the two
// rooms that the reply has behind its head.
ghost use Rattle.std.specs.Prelude.{◌≡◌, ◌+◌, ◌*◌, ◌≤◌, ◌<◌, length};
ghost use Rattle.wire.specs.Request.{header_length, request_of, StepOf, NextOf, Script, Bounded, longest, other_limit};

use crate::operation;
use crate::operation::Operation;
use crate::reply::HEAD;
use keyline::refusal::Refusal;

pub const HEADER: usize = 10;

#[derive(Clone, Copy)]
pub struct Request {
    // What is asked, if the first byte says it.
    pub operation: Option<Operation>,
    pub first: usize,
    pub second: usize,
    pub third: usize,
    pub room: usize,
    pub other: usize,
}

// How many bytes a request has, and how many its reply takes.
#[derive(Clone, Copy, Debug, PartialEq, Eq)]
pub struct Sizes {
    pub request: usize,
    pub reply: usize,
}

// A number in two bytes, the lower one first.
fn pair(low: u8, high: u8) -> usize
    ensures value { result ≡ low + 256 * high }
    ensures upper_bound { result ≤ longest }
{
    let l = low as usize;
    let h = high as usize;
    l + 256 * h
}

fn single(byte: u8) -> usize
    ensures { (result ≡ byte) × (result ≤ other_limit) }
{
    byte as usize
}

// The request whose header is at the front.
pub fn read(script: &[u8]) -> Request
    requires { header_length ≤ length script.now }
    ensures { (result ≡ request_of script.now) × Bounded result }
{
    let operation = operation::named(script[0]);
    let first = pair(script[1], script[2]);
    let second = pair(script[3], script[4]);
    let third = pair(script[5], script[6]);
    let room = pair(script[7], script[8]);
    let other = single(script[9]);
    Request {
        operation,
        first,
        second,
        third,
        room,
        other,
    }
}

// The sizes of the request at the front of the rest of a script, or why there is none.
pub fn next_step(script: &[u8]) -> Result<Sizes, Refusal>
    requires { 0 < length script.now }
    ensures { StepOf script.now result }
{
    if script.len() < HEADER {
        return Err(Refusal::UnexpectedEnd);
    }
    let q = read(script);
    if q.operation.is_none() {
        return Err(Refusal::InvalidTag(script[0]));
    }
    let n = HEADER + q.first + q.second + q.third;
    if script.len() < n {
        return Err(Refusal::UnexpectedEnd);
    }
    Ok(Sizes {
        request: n,
        reply: HEAD + q.room + q.other,
    })
}

// The next request of a script whose rest is well-formed.
pub fn next_request(script: &[u8], room: usize) -> Request
    requires { Script script.now room × (0 < length script.now) }
    ensures { NextOf script.now room result }
{
    read(script)
}
