// Names, levels and refusals to standard output. A name need not be UTF-8, so it is written as bytes.
use keyline::limits::KEY_LIMIT;
use keyline::refusal::Refusal;
use notation::level;
use power_levels::power::Power;
use std::{fmt, io};
use text::name::Name;

pub(crate) fn name(rt: &impl Print, name: &Name) -> io::Result<()> {
    rt.write_all(name.text())
}

// The level's name, or what is said where there is no level.
pub(crate) fn level_or(power: Option<Power>, none: &'static str) -> &'static str {
    power.map_or(none, |power| level::name(power))
}

// The same as a question's answer.
pub(crate) fn refused_line(rt: &impl Print, why: Refusal) -> io::Result<()> {
    println!(rt; "  {}", Refused(why))
}

// For people, that a list has nothing.
pub(crate) fn none(rt: &impl Print) -> io::Result<()> {
    rt.println("  none")
}

// An answer in words, or why it was refused.
#[derive(Clone, Copy)]
pub(crate) struct Answer(pub(crate) Result<&'static str, Refusal>);

impl fmt::Display for Answer {
    fn fmt<W: fmt::Write>(&self, f: &mut fmt::Formatter<W>) -> fmt::Result {
        match self.0 {
            Ok(words) => write!(f, "{words}"),
            Err(why) => write!(f, "{}", Refused(why)),
        }
    }
}

// A refusal by its number in document 01's table, and in words.
#[derive(Clone, Copy)]
pub(crate) struct Refused(pub(crate) Refusal);

impl fmt::Display for Refused {
    fn fmt<W: fmt::Write>(&self, f: &mut fmt::Formatter<W>) -> fmt::Result {
        let number = self.0.number();
        let beside = self.0.beside();
        write!(f, "refused {number}: ")?;
        match self.0 {
            Refusal::BadLength(n) => write!(f, "a key or a digest of {n} bytes"),
            Refusal::UnexpectedEnd => write!(f, "the payload ends too early"),
            Refusal::TrailingBytes => write!(f, "the payload has bytes left over"),
            Refusal::InvalidTag(b) => write!(f, "the byte {b} says nothing there"),
            Refusal::Conflict => {
                write!(
                    f,
                    "a certificate with this digest and other content is held"
                )
            }
            Refusal::FullDelegations => {
                write!(f, "the store holds {beside} delegations already")
            }
            Refusal::FullRevocations => {
                write!(f, "the store holds {beside} revocations already")
            }
            Refusal::FullKeys(n) => {
                let most = KEY_LIMIT;
                write!(
                    f,
                    "the store holds at most {most} keys, and new here are {n}"
                )
            }
            Refusal::SmallBuffer(n) => write!(f, "the answer takes {n} bytes"),
        }
    }
}
