// A reply: a number and two values, from the answer that each call gives. docs/SCRIPT.md has the table.
ghost use Rattle.std.specs.Prelude.{◌≡◌};
ghost use Rattle.wire.specs.Reply.{valued, refused, flagged, inserted, contained, looked, listed, both_listed, powered, lived, stood, head_of};

use keyline::refusal::Refusal;
use keyline::standing::Standing;
use lists::write::Counts;
use power_levels::power::Power;
use tables::answer::Outcome;

#[derive(Clone, Copy)]
pub struct Reply {
    pub number: u8,
    pub first: usize,
    pub second: usize,
}

// An answer that is one value.
pub fn valued(first: usize) -> Reply
    ensures { result ≡ valued first }
{
    Reply {
        number: 0,
        first,
        second: 0,
    }
}

impl From<Refusal> for Reply {
    ghost from_gives = { λ why r. r ≡ refused why };

    fn from(why: Refusal) -> Reply {
        Reply {
            number: why.number(),
            first: why.beside(),
            second: 0,
        }
    }
}

// An answer that is yes or no.
pub fn flagged(is: bool) -> Reply
    ensures { result ≡ flagged is }
{
    valued(usize::from(is))
}

impl From<Result<Outcome, Refusal>> for Reply {
    ghost from_gives = { λ answer r. r ≡ inserted answer };

    fn from(answer: Result<Outcome, Refusal>) -> Reply {
        match answer {
            Ok(Outcome::Added) => valued(1),
            Ok(Outcome::NotAdded) => valued(0),
            Err(why) => Reply::from(why),
        }
    }
}

impl From<Result<bool, Refusal>> for Reply {
    ghost from_gives = { λ answer r. (r ≡ contained answer) × (r ≡ lived answer) };

    fn from(answer: Result<bool, Refusal>) -> Reply {
        match answer {
            Ok(is) => flagged(is),
            Err(why) => Reply::from(why),
        }
    }
}

// Held, and how many bytes the second part has; all 0 where it is absent.
impl From<Result<Option<usize>, Refusal>> for Reply {
    ghost from_gives = { λ answer r. r ≡ looked answer };

    fn from(answer: Result<Option<usize>, Refusal>) -> Reply {
        match answer {
            Ok(Some(n)) => Reply {
                number: 0,
                first: 1,
                second: n,
            },
            Ok(None) => valued(0),
            Err(why) => Reply::from(why),
        }
    }
}

impl From<Result<usize, Refusal>> for Reply {
    ghost from_gives = { λ answer r. r ≡ listed answer };

    fn from(answer: Result<usize, Refusal>) -> Reply {
        match answer {
            Ok(n) => valued(n),
            Err(why) => Reply::from(why),
        }
    }
}

impl From<Result<Counts, Refusal>> for Reply {
    ghost from_gives = { λ answer r. r ≡ both_listed answer };

    fn from(answer: Result<Counts, Refusal>) -> Reply {
        match answer {
            Ok(n) => Reply {
                number: 0,
                first: n.delegations,
                second: n.revocations,
            },
            Err(why) => Reply::from(why),
        }
    }
}

// The power byte; 0 for none.
impl From<Result<Option<Power>, Refusal>> for Reply {
    ghost from_gives = { λ answer r. r ≡ powered answer };

    fn from(answer: Result<Option<Power>, Refusal>) -> Reply {
        match answer {
            Ok(Some(power)) => valued(usize::from(power.byte())),
            Ok(None) => valued(0),
            Err(why) => Reply::from(why),
        }
    }
}

impl From<Result<Option<Standing>, Refusal>> for Reply {
    ghost from_gives = { λ answer r. r ≡ stood answer };

    fn from(answer: Result<Option<Standing>, Refusal>) -> Reply {
        match answer {
            Ok(None) => valued(0),
            Ok(Some(Standing::Live)) => valued(1),
            Ok(Some(Standing::Revoked)) => valued(2),
            Ok(Some(Standing::Unsupported)) => valued(3),
            Err(why) => Reply::from(why),
        }
    }
}

// How many bytes a reply's number and values take.
pub const HEAD: usize = 9;

// The number, then each value in four bytes, the lowest first.
pub fn head(r: Reply) -> [u8; HEAD]
    ensures { result ≡ head_of r }
{
    let a = r.first.to_le_bytes();
    let b = r.second.to_le_bytes();
    [r.number, a[0], a[1], a[2], a[3], b[0], b[1], b[2], b[3]]
}
