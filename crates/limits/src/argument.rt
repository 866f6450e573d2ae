// An argument of a call: so many of the bytes that a number stands for.
use keyline::limits::{CITED_LENGTH, KEY_LENGTH};
use std::fmt;

// As many bytes as the longest argument has.
const LONGEST: usize = CITED_LENGTH;

#[derive(Clone, Copy)]
pub(crate) struct Argument {
    pub(crate) bytes: [u8; LONGEST],
    pub(crate) length: usize,
}

impl Argument {
    // Key n and digest n are bytes that are all n, so they ascend as their numbers do; here cut or drawn out to a length.
    pub(crate) fn of(number: u8, length: usize) -> Argument {
        Argument {
            bytes: [number; LONGEST],
            length,
        }
    }

    pub(crate) fn whole(number: u8) -> Argument {
        Argument::of(number, KEY_LENGTH)
    }

    pub(crate) fn as_slice(&self) -> &[u8] {
        &self.bytes[..self.length.min(LONGEST)]
    }
}

impl fmt::Display for Argument {
    fn fmt<W: fmt::Write>(&self, f: &mut fmt::Formatter<W>) -> fmt::Result {
        let number = self.bytes[0];
        let length = self.length;
        write!(f, "{number} of {length}")
    }
}
