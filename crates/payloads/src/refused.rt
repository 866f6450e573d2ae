// A refusal as a line says it: its number, and what stands beside it.
use keyline::refusal::Refusal;
use std::fmt;

#[derive(Clone, Copy)]
pub(crate) struct Refused(pub(crate) Refusal);

impl fmt::Display for Refused {
    fn fmt<W: fmt::Write>(&self, f: &mut fmt::Formatter<W>) -> fmt::Result {
        let number = self.0.number();
        let beside = self.0.beside();
        write!(f, "refused {number} beside {beside}")
    }
}
