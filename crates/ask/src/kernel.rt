// The kernel's calls in this crate's types: each call of State and of Evaluated stands here once, with the match on what it answers. Names
// go in as keys and digests, and lists come out as names.
ghost use Rattle.queries.specs.Evaluated.{GoodEvaluated};

use arrayvec::ArrayVec;
use keyline::limits::{
    CITED_LENGTH, DELEGATION_LIMIT, DIGEST_LENGTH, KEY_LENGTH, KEY_LIMIT, PAYLOAD_LENGTH, POWER_AT,
    REVOCATION_LIMIT,
};
use keyline::refusal::Refusal;
use keyline::standing::Standing;
use keyline_memory::state::State;
use lists::write::Counts;
use notation::statement::{Delegation, Revocation};
use power_levels::power::Power;
use queries::evaluated::Evaluated;
use tables::answer::Outcome;
use text::name::Name;

// The kernel writes 32 bytes an item into a lent buffer: this is one for a full store's certificates.
const LIST_LENGTH: usize = (DELEGATION_LIMIT + REVOCATION_LIMIT) * KEY_LENGTH;

// Items of a list, of which there are as many as a store holds at most: a list takes no memory that could run out.
pub(crate) type Delegations = ArrayVec<Name, DELEGATION_LIMIT>;

pub(crate) type Revocations = ArrayVec<Name, REVOCATION_LIMIT>;

pub(crate) type Keys = ArrayVec<Name, KEY_LIMIT>;

pub(crate) type Members = ArrayVec<Member, KEY_LIMIT>;

#[derive(Clone, Copy, Debug, PartialEq, Eq)]
pub(crate) enum Kind {
    Delegation,
    Revocation,
}

// Digests, in the kernel's order.
#[derive(Drop)]
pub(crate) struct Certificates {
    delegations: Delegations,
    revocations: Revocations,
}

impl Certificates {
    pub(crate) fn of(&self, kind: Kind) -> &[Name] {
        match kind {
            Kind::Delegation => self.delegations.as_slice(),
            Kind::Revocation => self.revocations.as_slice(),
        }
    }

    pub(crate) fn is_empty(&self) -> bool {
        self.delegations.is_empty() && self.revocations.is_empty()
    }
}

#[derive(Clone, Copy, Default)]
pub(crate) struct Member {
    pub(crate) key: Name,
    // None where the kernel's byte says no level.
    pub(crate) power: Option<Power>,
}

#[derive(Clone, Copy)]
pub(crate) struct Store {
    state: State,
}

impl Store {
    pub(crate) fn new() -> Self {
        Store {
            state: State::new(),
        }
    }

    // The payload is written by the kernel's own writer.
    pub(crate) fn insert_delegation(&mut self, new: &Delegation) -> Result<Outcome, Refusal> {
        let mut payload = [0u8; PAYLOAD_LENGTH];
        let level = new.power.byte();
        let (audience, subject) = (new.audience.key(), new.subject.key());
        codec::delegation::encode(audience, subject, level, b"", &mut payload)?;
        let (digest, issuer) = (new.digest.key(), new.issuer.key());
        self.state.insert_delegation(digest, issuer, &payload)
    }

    pub(crate) fn insert_revocation(&mut self, new: &Revocation) -> Result<Outcome, Refusal> {
        let (digest, issuer, revoked) = (new.digest.key(), new.issuer.key(), new.revoked.key());
        self.state.insert_revocation(digest, issuer, revoked)
    }

    // The delegation with the digest, if one is held.
    pub(crate) fn delegation(&self, digest: &Name) -> Result<Option<Delegation>, Refusal> {
        let mut issuer = [0u8; KEY_LENGTH];
        let mut payload = [0u8; CITED_LENGTH];
        let held = self
            .state
            .delegation(digest.key(), &mut issuer, &mut payload)?;
        match held {
            Some(_) => Ok(Some(delegation(*digest, Name::from(issuer), &payload)?)),
            None => Ok(None),
        }
    }

    // The revocation with the digest, if one is held.
    pub(crate) fn revocation(&self, digest: &Name) -> Result<Option<Revocation>, Refusal> {
        let mut issuer = [0u8; KEY_LENGTH];
        let mut revoked = [0u8; DIGEST_LENGTH];
        let held = self
            .state
            .revocation(digest.key(), &mut issuer, &mut revoked)?;
        match held {
            Some(_) => Ok(Some(Revocation {
                digest: *digest,
                issuer: Name::from(issuer),
                revoked: Name::from(revoked),
            })),
            None => Ok(None),
        }
    }

    pub(crate) fn certificates(&self) -> Result<Certificates, Refusal> {
        let mut list = [0u8; LIST_LENGTH];
        let counts = self.state.certificates(&mut list)?;
        Ok(both(&list, counts))
    }

    pub(crate) fn subjects(&self) -> Result<Keys, Refusal> {
        let mut list = [0u8; LIST_LENGTH];
        let n = self.state.subjects(&mut list)?;
        Ok(names(&list, 0, n))
    }

    pub(crate) fn revocations_of(&self, target: &Name) -> Result<Certificates, Refusal> {
        let mut list = [0u8; LIST_LENGTH];
        let revocations = self.state.revocations_of(target.key(), &mut list)?;
        let delegations = 0;
        Ok(both(
            &list,
            Counts {
                delegations,
                revocations,
            },
        ))
    }

    pub(crate) fn delegations_to(
        &self,
        subject: &Name,
        audience: &Name,
    ) -> Result<Certificates, Refusal> {
        let mut list = [0u8; LIST_LENGTH];
        let delegations = self
            .state
            .delegations_to(subject.key(), audience.key(), &mut list)?;
        let revocations = 0;
        Ok(both(
            &list,
            Counts {
                delegations,
                revocations,
            },
        ))
    }

    pub(crate) fn evaluate(&self) -> Evaluation
        ensures { GoodEvaluated result.evaluated }
    {
        Evaluation {
            evaluated: self.state.evaluate(),
        }
    }
}

// That it is good cannot be a ghost field: GoodEvaluated holds numbers, so it is no proposition.
#[derive(Clone, Copy)]
pub(crate) struct Evaluation {
    evaluated: Evaluated,
}

impl Evaluation {
    // A key's power over a subject, if it has any.
    pub(crate) fn effective_power(
        &self,
        subject: &Name,
        key: &Name,
    ) -> Result<Option<Power>, Refusal>
        requires { GoodEvaluated self.now.evaluated }
    {
        self.evaluated.effective_power(subject.key(), key.key())
    }

    // The same, were nothing revoked.
    pub(crate) fn positive_power(
        &self,
        subject: &Name,
        key: &Name,
    ) -> Result<Option<Power>, Refusal>
        requires { GoodEvaluated self.now.evaluated }
    {
        self.evaluated.positive_power(subject.key(), key.key())
    }

    // What a delegation conveys, if anything.
    pub(crate) fn conveyed_power(&self, digest: &Name) -> Result<Option<Power>, Refusal>
        requires { GoodEvaluated self.now.evaluated }
    {
        self.evaluated.conveyed_power(digest.key())
    }

    pub(crate) fn is_live(&self, digest: &Name) -> Result<bool, Refusal>
        requires { GoodEvaluated self.now.evaluated }
    {
        self.evaluated.is_live(digest.key())
    }

    // How the delegation with the digest stands, if one is held.
    pub(crate) fn standing(&self, digest: &Name) -> Result<Option<Standing>, Refusal>
        requires { GoodEvaluated self.now.evaluated }
    {
        self.evaluated.standing(digest.key())
    }

    pub(crate) fn members(&self, subject: &Name) -> Result<Members, Refusal>
        requires { GoodEvaluated self.now.evaluated }
    {
        let mut keys = [0u8; LIST_LENGTH];
        let mut powers = [0u8; KEY_LIMIT];
        let n = self
            .evaluated
            .members(subject.key(), &mut keys, &mut powers)?;
        Ok(members(&keys, &powers, n))
    }

    pub(crate) fn closure(&self, subject: &Name) -> Result<Certificates, Refusal>
        requires { GoodEvaluated self.now.evaluated }
    {
        let mut list = [0u8; LIST_LENGTH];
        let counts = self.evaluated.closure(subject.key(), &mut list)?;
        Ok(both(&list, counts))
    }
}

fn level(byte: u8) -> Option<Power> {
    Power::try_from(byte).ok()
}

// The delegation that a held payload says.
fn delegation(digest: Name, issuer: Name, payload: &[u8]) -> Result<Delegation, Refusal> {
    let [audience, subject, ..] = payload.as_chunks::<KEY_LENGTH>().0 else {
        return Err(Refusal::UnexpectedEnd);
    };
    let byte = payload.get(POWER_AT).copied().unwrap_or(0);
    let power = level(byte).ok_or(Refusal::InvalidTag(byte))?;
    Ok(Delegation {
        digest,
        issuer,
        audience: Name::from(*audience),
        power,
        subject: Name::from(*subject),
    })
}

// So many names of a list, behind so many others, as far as there is room.
fn names<const N: usize>(list: &[u8], others: usize, count: usize) -> ArrayVec<Name, N> {
    let mut names = ArrayVec::new();
    for key in list
        .as_chunks::<KEY_LENGTH>()
        .0
        .iter()
        .skip(others)
        .take(count)
    {
        let _ = names.try_push(Name::from(*key));
    }
    names
}

fn both(list: &[u8], counts: Counts) -> Certificates {
    Certificates {
        delegations: names(list, 0, counts.delegations),
        revocations: names(list, counts.delegations, counts.revocations),
    }
}

fn members(keys: &[u8], powers: &[u8], n: usize) -> Members {
    let mut members = ArrayVec::new();
    let keys = keys.as_chunks::<KEY_LENGTH>().0.iter();
    for (key, power) in keys.zip(powers).take(n) {
        let _ = members.try_push(Member {
            key: Name::from(*key),
            power: level(*power),
        });
    }
    members
}
