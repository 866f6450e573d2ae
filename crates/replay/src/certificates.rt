// The lines D, R and N: certificates that are held, and delegation digests that are not.
ghost use Rattle.queries.specs.Evaluated.{GoodEvaluated};

use crate::block::{Block, EVERY_REVOCATION, Fault, malformed};
use crate::fields::{Fields, Run};
use crate::frame::Line;
use crate::tally::Tally;
use crate::{fields, marks};
use keyline::limits::{CITED_LENGTH, KEY_LENGTH};
use keyline::refusal::Refusal;
use keyline::standing::Standing;

// What lookup buffers are filled with before the call.
const BEFORE: u8 = 165;

// D digest issuer payload live conveyed marks
#[derive(Clone, Copy)]
struct Delegation<'a> {
    digest: Run,
    issuer: Run,
    payload: &'a [u8],
    live: bool,
    conveyed: u8,
    named: &'a [u8],
}

impl<'a> Delegation<'a> {
    fn read(line: &'a Line, revocations: usize) -> Option<Self> {
        let mut fields = Fields::of(line.text());
        let delegation = Delegation {
            digest: fields.run()?,
            issuer: fields.run()?,
            payload: fields.payload()?,
            live: fields.flag()?,
            conveyed: fields.letter()?,
            named: fields.marks(revocations)?,
        };
        fields.end()?;
        Some(delegation)
    }

    // A held delegation's standing follows from its line: a dead one is revoked if a revocation is marked, else unsupported.
    fn stands(&self, found: Result<Option<Standing>, Refusal>) -> bool {
        let standing = if self.live {
            Standing::Live
        } else if self.named.contains(&b'1') {
            Standing::Revoked
        } else {
            Standing::Unsupported
        };
        found == Ok(Some(standing))
    }
}

// R digest issuer revoked
#[derive(Clone, Copy)]
struct Revocation {
    digest: Run,
    issuer: Run,
    revoked: Run,
}

impl Revocation {
    fn read(line: &Line) -> Option<Self> {
        let mut fields = Fields::of(line.text());
        let revocation = Revocation {
            digest: fields.run()?,
            issuer: fields.run()?,
            revoked: fields.run()?,
        };
        fields.end()?;
        Some(revocation)
    }
}

// N digest marks
#[derive(Clone, Copy)]
struct Unheld<'a> {
    digest: Run,
    named: &'a [u8],
}

impl<'a> Unheld<'a> {
    fn read(line: &'a Line, revocations: usize) -> Option<Self> {
        let mut fields = Fields::of(line.text());
        let unheld = Unheld {
            digest: fields.run()?,
            named: fields.marks(revocations)?,
        };
        fields.end()?;
        Some(unheld)
    }
}

impl Block<'_> {
    // A D line, where the store lists this digest in its place.
    pub(crate) fn delegation<R: Print>(
        &self,
        line: &Line,
        listed: &Run,
        tally: &mut Tally<R>,
    ) -> Result<(), Fault>
        requires { GoodEvaluated self.now.evaluation.now.evaluated }
    {
        let at = line.number;
        let Some(held) = Delegation::read(line, self.revocations.len()) else {
            return malformed(tally, at);
        };
        let digest = &held.digest;
        let other = self.revocations.contains(digest);
        tally.compare(digest == listed, at, "certificates");
        tally.compare(
            self.store.contains_delegation(digest) == Some(true),
            at,
            "contains",
        );
        tally.compare(
            self.store.contains_revocation(digest) == Some(other),
            at,
            "contains, of the other kind",
        );
        tally.compare(self.looks_up(&held), at, "lookup");
        tally.compare(self.evaluation.is_live(digest) == held.live, at, "is_live");
        tally.compare(
            held.stands(self.evaluation.standing(digest)),
            at,
            "standing",
        );
        let conveyed = self.evaluation.conveyed_power(digest);
        tally.compare(conveyed == Some(held.conveyed), at, "conveyed_power");
        tally.compare(self.is_named(digest, held.named), at, "revocations_of");
        Ok(())
    }

    // An R line, where the store lists this digest in its place.
    pub(crate) fn revocation<R: Print>(
        &self,
        line: &Line,
        listed: &Run,
        tally: &mut Tally<R>,
    ) -> Result<(), Fault> {
        let at = line.number;
        let Some(held) = Revocation::read(line) else {
            return malformed(tally, at);
        };
        let digest = &held.digest;
        let other = self.delegations.contains(digest);
        tally.compare(digest == listed, at, "certificates");
        tally.compare(
            self.store.contains_revocation(digest) == Some(true),
            at,
            "contains",
        );
        tally.compare(
            self.store.contains_delegation(digest) == Some(other),
            at,
            "contains, of the other kind",
        );
        tally.compare(self.looks_up_revocation(&held), at, "lookup");
        Ok(())
    }

    // An N line.
    pub(crate) fn unheld<R: Print>(&self, line: &Line, tally: &mut Tally<R>) -> Result<(), Fault>
        requires { GoodEvaluated self.now.evaluation.now.evaluated }
    {
        let at = line.number;
        let Some(unheld) = Unheld::read(line, self.revocations.len()) else {
            return malformed(tally, at);
        };
        let digest = &unheld.digest;
        let other = self.revocations.contains(digest);
        tally.compare(!self.delegations.contains(digest), at, "certificates");
        tally.compare(
            self.store.contains_delegation(digest) == Some(false),
            at,
            "contains",
        );
        tally.compare(
            self.store.contains_revocation(digest) == Some(other),
            at,
            "contains, of the other kind",
        );
        tally.compare(self.is_absent(digest), at, "lookup");
        tally.compare(!self.evaluation.is_live(digest), at, "is_live");
        let is_absent = self.evaluation.standing(digest) == Ok(None);
        tally.compare(is_absent, at, "standing");
        let conveyed = self.evaluation.conveyed_power(digest);
        tally.compare(conveyed == Some(b'.'), at, "conveyed_power");
        tally.compare(self.is_named(digest, unheld.named), at, "revocations_of");
        Ok(())
    }

    fn looks_up(&self, held: &Delegation<'_>) -> bool {
        let mut issuer = [BEFORE; KEY_LENGTH];
        let mut payload = [BEFORE; CITED_LENGTH];
        let mut room = [0u8; CITED_LENGTH];
        let Ok(Some(n)) = self
            .store
            .delegation(&held.digest, &mut issuer, &mut payload)
        else {
            return false;
        };
        issuer == held.issuer && payload.get(..n) == fields::bytes(held.payload, &mut room)
    }

    fn looks_up_revocation(&self, held: &Revocation) -> bool {
        let mut issuer = [BEFORE; KEY_LENGTH];
        let mut revoked = [BEFORE; KEY_LENGTH];
        let Ok(Some(n)) = self
            .store
            .revocation(&held.digest, &mut issuer, &mut revoked)
        else {
            return false;
        };
        issuer == held.issuer && revoked == held.revoked && n == revoked.len()
    }

    // Whether the lookup finds nothing and touches neither buffer.
    fn is_absent(&self, digest: &Run) -> bool {
        let mut issuer = [BEFORE; KEY_LENGTH];
        let mut payload = [BEFORE; CITED_LENGTH];
        let found = self.store.delegation(digest, &mut issuer, &mut payload);
        matches!(found, Ok(None))
            && issuer == [BEFORE; KEY_LENGTH]
            && payload == [BEFORE; CITED_LENGTH]
    }

    // Whether the marks are the revocations that name the digest.
    fn is_named(&self, digest: &Run, named: &[u8]) -> bool {
        let mut out = [0u8; EVERY_REVOCATION];
        self.store
            .revocations_of(digest, &mut out)
            .is_some_and(|list| marks::marked(named, self.revocations, list))
    }
}
