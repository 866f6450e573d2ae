// The refusals of document 01's table: a number, and a value that is returned beside it.
use crate::limits::{DELEGATION_LIMIT, REVOCATION_LIMIT};
use std::error::Error;
use std::fmt;

#[derive(Clone, Copy, Debug, PartialEq, Eq)]
pub enum Refusal {
    // A key or digest argument of another length; holds its length.
    BadLength(usize),
    UnexpectedEnd,
    TrailingBytes,
    // A power byte or a tag that says nothing; holds the byte.
    InvalidTag(u8),
    Conflict,
    FullDelegations,
    FullRevocations,
    // Holds the number of distinct new keys.
    FullKeys(usize),
    // Holds the number of bytes needed.
    SmallBuffer(usize),
}

impl Refusal {
    ghost use Rattle.std.specs.Prelude.{◌≡◌};
    ghost use Rattle.keyline.specs.Refusal.{number_of, beside_of};

    // Its number in the table.
    pub fn number(self) -> u8
        ensures { result ≡ number_of self }
    {
        match self {
            Refusal::BadLength(_) => 1,
            Refusal::UnexpectedEnd => 2,
            Refusal::TrailingBytes => 3,
            Refusal::InvalidTag(_) => 4,
            Refusal::Conflict => 5,
            Refusal::FullDelegations => 6,
            Refusal::FullRevocations => 7,
            Refusal::FullKeys(_) => 8,
            Refusal::SmallBuffer(_) => 9,
        }
    }

    // What is returned beside the number.
    pub fn beside(self) -> usize
        ensures { result ≡ beside_of self }
    {
        match self {
            Refusal::BadLength(n) => n,
            Refusal::UnexpectedEnd => 0,
            Refusal::TrailingBytes => 0,
            Refusal::InvalidTag(b) => b as usize,
            Refusal::Conflict => 0,
            Refusal::FullDelegations => DELEGATION_LIMIT,
            Refusal::FullRevocations => REVOCATION_LIMIT,
            Refusal::FullKeys(n) => n,
            Refusal::SmallBuffer(n) => n,
        }
    }
}

impl fmt::Display for Refusal {
    fn fmt<W: fmt::Write>(&self, f: &mut fmt::Formatter<W>) -> fmt::Result {
        match self {
            Refusal::BadLength(n) => write!(f, "an argument of {n} bytes is no key or digest"),
            Refusal::UnexpectedEnd => write!(f, "the payload ends too soon"),
            Refusal::TrailingBytes => write!(f, "the payload has bytes behind its end"),
            Refusal::InvalidTag(b) => write!(f, "{b} is neither a power level nor a tag"),
            Refusal::Conflict => write!(f, "the digest is held with another content"),
            Refusal::FullDelegations => write!(f, "the store holds {DELEGATION_LIMIT} delegations"),
            Refusal::FullRevocations => write!(f, "the store holds {REVOCATION_LIMIT} revocations"),
            Refusal::FullKeys(n) => write!(f, "the store has no room for {n} more keys"),
            Refusal::SmallBuffer(n) => write!(f, "the buffer has no room for {n} bytes"),
        }
    }
}

impl Error for Refusal {}
