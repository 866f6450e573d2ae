// What a call answered, as its line says it. Each answer of the store is turned into one here, and nowhere else.
use keyline::refusal::Refusal;
use keyline::standing::Standing;
use lists::write::Counts;
use power_levels::power::Power;
use std::fmt;
use tables::answer::Outcome;

#[derive(Clone, Copy)]
pub(crate) enum Answered {
    Added,
    NotAdded,
    Contains(bool),
    Level(Power),
    NoPower,
    Live,
    Dead,
    Revoked,
    Unsupported,
    Absent,
    // A certificate with so many bytes beside its issuer.
    Held(usize),
    // So many items in the buffer.
    Count(usize),
    // The same of two lists, one behind the other.
    Counts(usize, usize),
    Refused(Refusal),
}

impl Answered {
    // How many items stand in the buffer.
    pub(crate) fn items(self) -> usize {
        match self {
            Answered::Count(n) => n,
            Answered::Counts(n, m) => n.saturating_add(m),
            _ => 0,
        }
    }
}

impl fmt::Display for Answered {
    fn fmt<W: fmt::Write>(&self, f: &mut fmt::Formatter<W>) -> fmt::Result {
        match self {
            Answered::Added => write!(f, "added"),
            Answered::NotAdded => write!(f, "not added"),
            Answered::Contains(held) => write!(f, "{}", u8::from(*held)),
            Answered::Level(level) => write!(f, "level {}", level.rank()),
            Answered::NoPower => write!(f, "none"),
            Answered::Live => write!(f, "live"),
            Answered::Dead => write!(f, "dead"),
            Answered::Revoked => write!(f, "revoked"),
            Answered::Unsupported => write!(f, "unsupported"),
            Answered::Absent => write!(f, "absent"),
            Answered::Held(n) => write!(f, "held, of {n}"),
            Answered::Count(n) => write!(f, "count {n}"),
            Answered::Counts(n, m) => write!(f, "counts {n} and {m}"),
            Answered::Refused(why) => {
                let number = why.number();
                let beside = why.beside();
                write!(f, "refused {number} beside {beside}")
            }
        }
    }
}

pub(crate) fn inserted(answer: Result<Outcome, Refusal>) -> Answered {
    match answer {
        Ok(Outcome::Added) => Answered::Added,
        Ok(Outcome::NotAdded) => Answered::NotAdded,
        Err(why) => Answered::Refused(why),
    }
}

pub(crate) fn contained(answer: Result<bool, Refusal>) -> Answered {
    match answer {
        Ok(held) => Answered::Contains(held),
        Err(why) => Answered::Refused(why),
    }
}

pub(crate) fn powered(answer: Result<Option<Power>, Refusal>) -> Answered {
    match answer {
        Ok(Some(level)) => Answered::Level(level),
        Ok(None) => Answered::NoPower,
        Err(why) => Answered::Refused(why),
    }
}

pub(crate) fn live(answer: Result<bool, Refusal>) -> Answered {
    match answer {
        Ok(true) => Answered::Live,
        Ok(false) => Answered::Dead,
        Err(why) => Answered::Refused(why),
    }
}

pub(crate) fn stood(answer: Result<Option<Standing>, Refusal>) -> Answered {
    match answer {
        Ok(Some(Standing::Live)) => Answered::Live,
        Ok(Some(Standing::Revoked)) => Answered::Revoked,
        Ok(Some(Standing::Unsupported)) => Answered::Unsupported,
        Ok(None) => Answered::Absent,
        Err(why) => Answered::Refused(why),
    }
}

pub(crate) fn looked(answer: Result<Option<usize>, Refusal>) -> Answered {
    match answer {
        Ok(Some(n)) => Answered::Held(n),
        Ok(None) => Answered::Absent,
        Err(why) => Answered::Refused(why),
    }
}

pub(crate) fn listed(answer: Result<usize, Refusal>) -> Answered {
    match answer {
        Ok(n) => Answered::Count(n),
        Err(why) => Answered::Refused(why),
    }
}

pub(crate) fn both_listed(answer: Result<Counts, Refusal>) -> Answered {
    match answer {
        Ok(n) => Answered::Counts(n.delegations, n.revocations),
        Err(why) => Answered::Refused(why),
    }
}
