// The kernel, as the lines ask it: each of its calls once, with its answer as an Option or a Result. What it lists is lent as a part of the buffer
// that it was listed in.
ghost use Rattle.queries.specs.Evaluated.{GoodEvaluated};

use crate::fields::Run;
use keyline::limits::DIGEST_LENGTH;
use keyline::refusal::Refusal;
use keyline::standing::Standing;
use keyline_memory::state::State;
use power_levels::power::Power;
use queries::evaluated::Evaluated;
use tables::answer::Outcome;

// What the reader says of a payload: its power, and whether it cites.
pub(crate) fn decode(payload: &[u8]) -> Result<(Power, bool), Refusal> {
    let found = codec::delegation::decode(payload)?;
    Ok((found.power, !found.citation.is_empty()))
}

// The letter of an answer, where it is one.
fn letter(answer: Result<Option<Power>, Refusal>) -> Option<u8> {
    let power = answer.ok()?;
    Some(power.map_or(b'.', |power| power.byte()))
}

// The first runs of a buffer.
fn runs(buffer: &[u8], n: usize) -> Option<&[Run]> {
    buffer.as_chunks::<DIGEST_LENGTH>().0.get(..n)
}

// The first runs of a buffer, and as many as asked for behind them.
fn both_runs(buffer: &[u8], n: usize, m: usize) -> Option<(&[Run], &[Run])> {
    let (first, behind) = buffer.as_chunks::<DIGEST_LENGTH>().0.split_at_checked(n)?;
    Some((first, behind.get(..m)?))
}

#[derive(Clone, Copy)]
pub(crate) struct Store {
    state: State,
}

impl Store {
    pub(crate) fn new() -> Self {
        Store {
            state: State::new(),
        }
    }

    // Whether it was added, where the kernel does not refuse it.
    pub(crate) fn insert_delegation(
        &mut self,
        digest: &Run,
        issuer: &Run,
        payload: &[u8],
    ) -> Result<bool, Refusal> {
        let outcome = self.state.insert_delegation(digest, issuer, payload)?;
        Ok(outcome == Outcome::Added)
    }

    pub(crate) fn insert_revocation(
        &mut self,
        digest: &Run,
        issuer: &Run,
        revoked: &Run,
    ) -> Result<bool, Refusal> {
        let outcome = self.state.insert_revocation(digest, issuer, revoked)?;
        Ok(outcome == Outcome::Added)
    }

    pub(crate) fn version(&self) -> u64 {
        self.state.version()
    }

    pub(crate) fn len(&self) -> usize {
        self.state.len()
    }

    pub(crate) fn is_empty(&self) -> bool {
        self.state.is_empty()
    }

    pub(crate) fn evaluate(&self) -> Evaluation
        ensures { GoodEvaluated result.evaluated }
    {
        Evaluation {
            evaluated: self.state.evaluate(),
        }
    }

    pub(crate) fn contains_delegation(&self, digest: &Run) -> Option<bool> {
        self.state.contains_delegation(digest).ok()
    }

    pub(crate) fn contains_revocation(&self, digest: &Run) -> Option<bool> {
        self.state.contains_revocation(digest).ok()
    }

    pub(crate) fn delegation(
        &self,
        digest: &Run,
        issuer: &mut Run,
        payload: &mut [u8],
    ) -> Result<Option<usize>, Refusal> {
        self.state.delegation(digest, issuer, payload)
    }

    pub(crate) fn revocation(
        &self,
        digest: &Run,
        issuer: &mut Run,
        revoked: &mut Run,
    ) -> Result<Option<usize>, Refusal> {
        self.state.revocation(digest, issuer, revoked)
    }

    // The delegations, and the revocations.
    pub(crate) fn certificates<'a>(&self, out: &'a mut [u8]) -> Option<(&'a [Run], &'a [Run])> {
        let n = self.state.certificates(out).ok()?;
        both_runs(out, n.delegations, n.revocations)
    }

    pub(crate) fn subjects<'a>(&self, out: &'a mut [u8]) -> Option<&'a [Run]> {
        let n = self.state.subjects(out).ok()?;
        runs(out, n)
    }

    pub(crate) fn revocations_of<'a>(&self, target: &Run, out: &'a mut [u8]) -> Option<&'a [Run]> {
        let n = self.state.revocations_of(target, out).ok()?;
        runs(out, n)
    }

    pub(crate) fn delegations_to<'a>(
        &self,
        subject: &Run,
        audience: &Run,
        out: &'a mut [u8],
    ) -> Option<&'a [Run]> {
        let n = self.state.delegations_to(subject, audience, out).ok()?;
        runs(out, n)
    }
}

// No ghost field keeps that it is good, as the store's does: GoodEvaluated has more than one proof, which the check refuses there. So what asks the
// evaluation requires it.
#[derive(Clone, Copy)]
pub(crate) struct Evaluation {
    pub evaluated: Evaluated,
}

impl Evaluation {
    // The letters of powers, as a line has them.
    pub(crate) fn positive_power(&self, subject: &Run, audience: &Run) -> Option<u8>
        requires { GoodEvaluated self.now.evaluated }
    {
        letter(self.evaluated.positive_power(subject, audience))
    }

    pub(crate) fn effective_power(&self, subject: &Run, audience: &Run) -> Option<u8>
        requires { GoodEvaluated self.now.evaluated }
    {
        letter(self.evaluated.effective_power(subject, audience))
    }

    pub(crate) fn conveyed_power(&self, digest: &Run) -> Option<u8>
        requires { GoodEvaluated self.now.evaluated }
    {
        letter(self.evaluated.conveyed_power(digest))
    }

    pub(crate) fn is_live(&self, digest: &Run) -> bool
        requires { GoodEvaluated self.now.evaluated }
    {
        self.evaluated.is_live(digest) == Ok(true)
    }

    pub(crate) fn standing(&self, digest: &Run) -> Result<Option<Standing>, Refusal>
        requires { GoodEvaluated self.now.evaluated }
    {
        self.evaluated.standing(digest)
    }

    // The members, and a letter for each.
    pub(crate) fn members<'a>(
        &self,
        subject: &Run,
        keys: &'a mut [u8],
        powers: &'a mut [u8],
    ) -> Option<(&'a [Run], &'a [u8])>
        requires { GoodEvaluated self.now.evaluated }
    {
        let n = self.evaluated.members(subject, keys, powers).ok()?;
        Some((runs(keys, n)?, powers.get(..n)?))
    }

    // The delegations, and the revocations.
    pub(crate) fn closure<'a>(
        &self,
        subject: &Run,
        out: &'a mut [u8],
    ) -> Option<(&'a [Run], &'a [Run])>
        requires { GoodEvaluated self.now.evaluated }
    {
        let n = self.evaluated.closure(subject, out).ok()?;
        both_runs(out, n.delegations, n.revocations)
    }
}
