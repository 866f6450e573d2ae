// The certificate set (state.rs). Its field is private, so that every State is one that `new` and insertions made.
ghost use Rattle.std.specs.Prelude.{◌≡◌, false, eqb, length};
ghost use Rattle.tables.specs.Committed.{nothing, length_of, delegation_digests, revocation_digests, delegation_with, revocation_with, payload_of};
ghost use Rattle.tables.specs.Insertion.{is_added, settled, delegation_answer, delegation_added, revocation_answer, revocation_added};
ghost use Rattle.lookups.specs.Lookup.{contains_answer, part_buffer};
ghost use Rattle.lookups.specs.Lookup as look;
ghost use Rattle.lists.specs.Lists.{both_answer, both_buffer, list_answer, list_buffer, length_first, certificate_delegations, certificate_revocations, subjects_of, revocations_of, delegations_to};
ghost use Rattle.queries.specs.Evaluated.{held_by, GoodEvaluated};

use keyline::refusal::Refusal;
use lists::write::Counts;
use queries::evaluated::Evaluated;
use store::Store;
use tables::answer::Outcome;

#[derive(Clone, Copy)]
pub struct State {
    store: Store,
}

impl State {
    ghost use Rattle.keyline_memory.specs.State.{held_in};

    // The empty set.
    pub fn new() -> State
        ensures { held_in result ≡ nothing }
    {
        State {
            store: Store::new(),
        }
    }

    // A delegation by its digest, its issuer and its payload. Only where the answer is Added does the set change.
    pub fn insert_delegation(
        &mut self,
        digest: &[u8],
        issuer: &[u8],
        payload: &[u8],
    ) -> Result<Outcome, Refusal>
        ensures answer { result ≡ delegation_answer (held_in self.old) digest.now issuer.now payload.now }
        ensures held { held_in self.new ≡ settled result (held_in self.old) (delegation_added (held_in self.old) digest.now issuer.now payload.now) }
        ensures kept { is_added result ≡ false → self.new ≡ self.old }
    {
        insertion::insert_delegation(&mut self.store, digest, issuer, payload)
    }

    // A revocation by its digest, its issuer and the digest that it revokes, which need not be held.
    pub fn insert_revocation(
        &mut self,
        digest: &[u8],
        issuer: &[u8],
        revoked: &[u8],
    ) -> Result<Outcome, Refusal>
        ensures answer { result ≡ revocation_answer (held_in self.old) digest.now issuer.now revoked.now }
        ensures held { held_in self.new ≡ settled result (held_in self.old) (revocation_added (held_in self.old) digest.now issuer.now revoked.now) }
        ensures kept { is_added result ≡ false → self.new ≡ self.old }
    {
        insertion::insert_revocation(&mut self.store, digest, issuer, revoked)
    }

    // How many certificates were ever added.
    pub fn version(&self) -> u64
        ensures { result ≡ length_of (held_in self.now) }
    {
        self.store.version()
    }

    pub fn len(&self) -> usize
        ensures { result ≡ length_of (held_in self.now) }
    {
        self.store.len()
    }

    pub fn is_empty(&self) -> bool
        ensures { result ≡ eqb (length_of (held_in self.now)) 0 }
    {
        self.store.is_empty()
    }

    // The evaluation of the set as it stands; every further question is put to what it gives.
    pub fn evaluate(&self) -> Evaluated
        ensures good { GoodEvaluated result }
        ensures held { held_by result ≡ held_in self.now }
    {
        queries::evaluated::evaluate(&self.store)
    }

    pub fn contains_delegation(&self, digest: &[u8]) -> Result<bool, Refusal>
        ensures { result ≡ contains_answer (delegation_digests (held_in self.now)) digest.now }
    {
        lookups::lookup::contains_delegation(&self.store, digest)
    }

    pub fn contains_revocation(&self, digest: &[u8]) -> Result<bool, Refusal>
        ensures { result ≡ contains_answer (revocation_digests (held_in self.now)) digest.now }
    {
        lookups::lookup::contains_revocation(&self.store, digest)
    }

    // The issuer and the payload of the delegation with that digest, in two lent buffers.
    pub fn delegation(
        &self,
        digest: &[u8],
        issuer: &mut [u8],
        payload: &mut [u8],
    ) -> Result<Option<usize>, Refusal>
        ensures answer { result ≡ look.delegation_lookup (held_in self.now) digest.now (length issuer.old) (length payload.old) }
        ensures issuer { issuer.new ≡ part_buffer result (delegation_with (held_in self.now) digest.now).issuer issuer.old }
        ensures payload { payload.new ≡ part_buffer result (payload_of (delegation_with (held_in self.now) digest.now)) payload.old }
    {
        lookups::lookup::delegation(&self.store, digest, issuer, payload)
    }

    // The issuer and the revoked digest of the revocation with that digest, in two lent buffers.
    pub fn revocation(
        &self,
        digest: &[u8],
        issuer: &mut [u8],
        revoked: &mut [u8],
    ) -> Result<Option<usize>, Refusal>
        ensures answer { result ≡ look.revocation_lookup (held_in self.now) digest.now (length issuer.old) (length revoked.old) }
        ensures issuer { issuer.new ≡ part_buffer result (revocation_with (held_in self.now) digest.now).issuer issuer.old }
        ensures revoked { revoked.new ≡ part_buffer result (revocation_with (held_in self.now) digest.now).revoked revoked.old }
    {
        lookups::lookup::revocation(&self.store, digest, issuer, revoked)
    }

    // All certificates: delegations ascending, then revocations ascending.
    pub fn certificates(&self, out: &mut [u8]) -> Result<Counts, Refusal>
        ensures answer { result ≡ both_answer (certificate_delegations (held_in self.now)) (certificate_revocations (held_in self.now)) (length out.old) }
        ensures out { out.new ≡ both_buffer result (certificate_delegations (held_in self.now)) (certificate_revocations (held_in self.now)) out.old }
    {
        lists::lists::certificates(&self.store, out)
    }

    // The subjects of held delegations.
    pub fn subjects(&self, out: &mut [u8]) -> Result<usize, Refusal>
        ensures answer { result ≡ list_answer (subjects_of (held_in self.now)) (length out.old) }
        ensures out { out.new ≡ list_buffer result (subjects_of (held_in self.now)) out.old }
    {
        lists::lists::subjects(&self.store, out)
    }

    // The held revocations that name the target, which need not be held.
    pub fn revocations_of(&self, target: &[u8], out: &mut [u8]) -> Result<usize, Refusal>
        ensures answer { result ≡ length_first target.now (list_answer (revocations_of (held_in self.now) target.now) (length out.old)) }
        ensures out { out.new ≡ list_buffer result (revocations_of (held_in self.now) target.now) out.old }
    {
        lists::lists::revocations_of(&self.store, target, out)
    }

    // The held delegations with that subject and audience.
    pub fn delegations_to(
        &self,
        subject: &[u8],
        audience: &[u8],
        out: &mut [u8],
    ) -> Result<usize, Refusal>
        ensures answer { result ≡ length_first subject.now (length_first audience.now (list_answer (delegations_to (held_in self.now) subject.now audience.now) (length out.old))) }
        ensures out { out.new ≡ list_buffer result (delegations_to (held_in self.now) subject.now audience.now) out.old }
    {
        lists::lists::delegations_to(&self.store, subject, audience, out)
    }
}
