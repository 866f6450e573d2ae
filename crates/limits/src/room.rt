// Spaces that are filled before a call, which is lent a part of them, and what stands in them afterwards.
use keyline::limits::DIGEST_LENGTH;
use std::fmt;

// What a space is filled with before; no key, no digest and no power has such a byte.
pub(crate) const BEFORE: u8 = 255;

// How many bytes are no longer what the space was filled with.
pub(crate) fn touched(space: &[u8]) -> usize {
    space.iter().filter(|byte| **byte != BEFORE).count()
}

// The first items of a space, each as the number that its 32 bytes are; a mark where they are not.
#[derive(Clone, Copy)]
pub(crate) struct Items<'a> {
    pub(crate) space: &'a [u8],
    pub(crate) count: usize,
}

impl fmt::Display for Items<'_> {
    fn fmt<W: fmt::Write>(&self, f: &mut fmt::Formatter<W>) -> fmt::Result {
        for item in self.space.chunks_exact(DIGEST_LENGTH).take(self.count) {
            if let [number, others @ ..] = item {
                write!(f, " {number}")?;
                if others.iter().any(|byte| byte != number) {
                    write!(f, "?")?;
                }
            }
        }
        Ok(())
    }
}
