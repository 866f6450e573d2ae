// Insertions, each printed with its answer and with what the set counts afterwards.

use crate::answered::Answered;
use crate::certificate::Certificate;
use keyline_memory::state::State;
use std::io;

// Without a line.
pub(crate) fn all(s: &mut State, certificates: &[Certificate]) {
    for certificate in certificates {
        certificate.insert(s, certificate.lengths());
    }
}

// Behind what was inserted: the answer, and what the set counts after it.
pub(crate) fn outcome(rt: &impl Print, answer: Answered, s: &State) -> io::Result<()> {
    let len = s.len();
    let version = s.version();
    println!(rt; ": {answer}, len {len}, version {version}")
}

fn one(rt: &impl Print, s: &mut State, certificate: &Certificate) -> io::Result<()> {
    print!(rt; "  {certificate}")?;
    let answer = certificate.insert(s, certificate.lengths());
    outcome(rt, answer, s)
}

// One after the other.
pub(crate) fn in_turn(
    rt: &impl Print,
    s: &mut State,
    certificates: &[Certificate],
) -> io::Result<()> {
    for certificate in certificates {
        one(rt, s, certificate)?;
    }
    Ok(())
}

// Each into the same set, which is left as it was.
pub(crate) fn each(rt: &impl Print, s: &State, certificates: &[Certificate]) -> io::Result<()> {
    for certificate in certificates {
        let mut after = *s;
        one(rt, &mut after, certificate)?;
    }
    Ok(())
}
