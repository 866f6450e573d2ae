// The lists of a store: places are marked, taken in ascending order, and written. Each item is written by lending its own 32 bytes.
ghost use Rattle.std.specs.Prelude.{◌≡◌, length};
ghost use Rattle.store.specs.Store.{committed};
ghost use Rattle.lists.specs.Lists.{list_answer, list_buffer, both_answer, both_buffer, length_first, certificate_delegations, certificate_revocations, revocations_of, delegations_to, subjects_of};

use crate::write::Counts;
use keyline::limits::{DELEGATION_LIMIT, DIGEST_LENGTH, KEY_LENGTH, KEY_LIMIT, REVOCATION_LIMIT};
use keyline::refusal::Refusal;
use store::Store;

// All certificates: delegations ascending, then revocations ascending.
pub fn certificates(store: &Store, out: &mut [u8]) -> Result<Counts, Refusal>
    ensures answer { result ≡ both_answer (certificate_delegations (committed store.now)) (certificate_revocations (committed store.now)) (length out.old) }
    ensures out { out.new ≡ both_buffer result (certificate_delegations (committed store.now)) (certificate_revocations (committed store.now)) out.old }
{
    let on = crate::mark::all();
    let n = store.delegations.count;
    let c = runs::list::choose(&store.delegations.digests, DELEGATION_LIMIT, n, &on);
    let m = store.revocations.count;
    let d = runs::list::choose(&store.revocations.digests, REVOCATION_LIMIT, m, &on);
    crate::write::write_both(
        &store.delegations.digests,
        &store.revocations.digests,
        c,
        d,
        out,
    )
}

// The subjects of held delegations.
pub fn subjects(store: &Store, out: &mut [u8]) -> Result<usize, Refusal>
    ensures answer { result ≡ list_answer (subjects_of (committed store.now)) (length out.old) }
    ensures out { out.new ≡ list_buffer result (subjects_of (committed store.now)) out.old }
{
    let n = store.delegations.count;
    let on = crate::mark::subjects(&store.delegations.subject, n);
    let m = store.keys.count;
    let c = runs::list::choose(&store.keys.table, KEY_LIMIT, m, &on);
    crate::write::write_one(&store.keys.table, c, out)
}

// The held revocations that name the target, which need not be held.
pub fn revocations_of(store: &Store, target: &[u8], out: &mut [u8]) -> Result<usize, Refusal>
    ensures answer { result ≡ length_first target.now (list_answer (revocations_of (committed store.now) target.now) (length out.old)) }
    ensures out { out.new ≡ list_buffer result (revocations_of (committed store.now) target.now) out.old }
{
    if target.len() != DIGEST_LENGTH {
        return Err(Refusal::BadLength(target.len()));
    }
    let n = store.revocations.count;
    let on = crate::mark::naming(&store.revocations.revoked, n, target);
    let c = runs::list::choose(&store.revocations.digests, REVOCATION_LIMIT, n, &on);
    crate::write::write_one(&store.revocations.digests, c, out)
}

// The held delegations with that subject and audience.
pub fn delegations_to(
    store: &Store,
    subject: &[u8],
    audience: &[u8],
    out: &mut [u8],
) -> Result<usize, Refusal>
    ensures answer { result ≡ length_first subject.now (length_first audience.now (list_answer (delegations_to (committed store.now) subject.now audience.now) (length out.old))) }
    ensures out { out.new ≡ list_buffer result (delegations_to (committed store.now) subject.now audience.now) out.old }
{
    if subject.len() != KEY_LENGTH {
        return Err(Refusal::BadLength(subject.len()));
    }
    if audience.len() != KEY_LENGTH {
        return Err(Refusal::BadLength(audience.len()));
    }
    let m = store.keys.count;
    let i = tables::keys::find(&store.keys.table, m, subject);
    let j = tables::keys::find(&store.keys.table, m, audience);
    let n = store.delegations.count;
    let on = crate::mark::between(
        &store.delegations.subject,
        &store.delegations.audience,
        n,
        i,
        j,
    );
    let c = runs::list::choose(&store.delegations.digests, DELEGATION_LIMIT, n, &on);
    crate::write::write_one(&store.delegations.digests, c, out)
}
