// One line for each call that fills no buffer: its arguments, each by number and length, and its answer.
ghost use Rattle.queries.specs.Evaluated.{GoodEvaluated};

use crate::answered::{contained, live, powered, stood};
use crate::argument::Argument;
use keyline_memory::state::State;
use queries::evaluated::Evaluated;
use std::io;

// Whether a certificate of either kind has the digest.
pub(crate) fn contains(rt: &impl Print, s: &State, digest: &Argument) -> io::Result<()> {
    let delegation = contained(s.contains_delegation(digest.as_slice()));
    let revocation = contained(s.contains_revocation(digest.as_slice()));
    println!(rt; "  contains_delegation {digest}: {delegation}")?;
    println!(rt; "  contains_revocation {digest}: {revocation}")
}

// Conveyed power, liveness and standing of a delegation.
pub(crate) fn delegation(rt: &impl Print, e: &Evaluated, digest: &Argument) -> io::Result<()>
    requires { GoodEvaluated e.now }
{
    let conveyed = powered(e.conveyed_power(digest.as_slice()));
    let liveness = live(e.is_live(digest.as_slice()));
    let standing = stood(e.standing(digest.as_slice()));
    println!(rt; "  conveyed_power {digest}: {conveyed}")?;
    println!(rt; "  is_live {digest}: {liveness}")?;
    println!(rt; "  standing {digest}: {standing}")
}

// Positive and effective power of the audience over the subject.
pub(crate) fn powers(
    rt: &impl Print,
    e: &Evaluated,
    subject: &Argument,
    audience: &Argument,
) -> io::Result<()>
    requires { GoodEvaluated e.now }
{
    let positive = powered(e.positive_power(subject.as_slice(), audience.as_slice()));
    let effective = powered(e.effective_power(subject.as_slice(), audience.as_slice()));
    println!(rt; "  positive_power {subject} {audience}: {positive}")?;
    println!(rt; "  effective_power {subject} {audience}: {effective}")
}
