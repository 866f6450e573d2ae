// Certificates by identity: whether one is held, and its parts in two lent buffers.
ghost use Rattle.std.specs.Prelude.{◌≡◌, length};
ghost use Rattle.tables.specs.Committed.{delegation_digests, revocation_digests, delegation_with, revocation_with, payload_of};
ghost use Rattle.store.specs.Store.{committed};
ghost use Rattle.lookups.specs.Lookup.{contains_answer, delegation_lookup, revocation_lookup, part_buffer};

use keyline::limits::DIGEST_LENGTH;
use keyline::refusal::Refusal;
use store::Store;

pub fn contains_delegation(store: &Store, digest: &[u8]) -> Result<bool, Refusal>
    ensures { result ≡ contains_answer (delegation_digests (committed store.now)) digest.now }
{
    if digest.len() != DIGEST_LENGTH {
        return Err(Refusal::BadLength(digest.len()));
    }
    let n = store.delegations.count;
    let at = tables::delegations::find(&store.delegations.digests, n, digest);
    Ok(at.0 < n)
}

pub fn contains_revocation(store: &Store, digest: &[u8]) -> Result<bool, Refusal>
    ensures { result ≡ contains_answer (revocation_digests (committed store.now)) digest.now }
{
    if digest.len() != DIGEST_LENGTH {
        return Err(Refusal::BadLength(digest.len()));
    }
    let n = store.revocations.count;
    let at = tables::revocations::find(&store.revocations.digests, n, digest);
    Ok(at.0 < n)
}

// The issuer and the payload of the delegation with that digest, in two lent buffers.
pub fn delegation(
    store: &Store,
    digest: &[u8],
    issuer: &mut [u8],
    payload: &mut [u8],
) -> Result<Option<usize>, Refusal>
    ensures answer { result ≡ delegation_lookup (committed store.now) digest.now (length issuer.old) (length payload.old) }
    ensures issuer { issuer.new ≡ part_buffer result (delegation_with (committed store.now) digest.now).issuer issuer.old }
    ensures payload { payload.new ≡ part_buffer result (payload_of (delegation_with (committed store.now) digest.now)) payload.old }
{
    if digest.len() != DIGEST_LENGTH {
        return Err(Refusal::BadLength(digest.len()));
    }
    let n = store.delegations.count;
    let at = tables::delegations::find(&store.delegations.digests, n, digest);
    if at.0 < n {
        let row = tables::delegations::row(
            &store.delegations.issuer,
            &store.delegations.audience,
            &store.delegations.subject,
            &store.delegations.power,
            &store.delegations.cited,
            at,
        );
        return crate::put::put_delegation(
            &store.keys.table,
            &store.delegations.citation,
            at,
            row,
            issuer,
            payload,
        );
    }
    Ok(None)
}

// The issuer and the revoked digest of the revocation with that digest, in two lent buffers.
pub fn revocation(
    store: &Store,
    digest: &[u8],
    issuer: &mut [u8],
    revoked: &mut [u8],
) -> Result<Option<usize>, Refusal>
    ensures answer { result ≡ revocation_lookup (committed store.now) digest.now (length issuer.old) (length revoked.old) }
    ensures issuer { issuer.new ≡ part_buffer result (revocation_with (committed store.now) digest.now).issuer issuer.old }
    ensures revoked { revoked.new ≡ part_buffer result (revocation_with (committed store.now) digest.now).revoked revoked.old }
{
    if digest.len() != DIGEST_LENGTH {
        return Err(Refusal::BadLength(digest.len()));
    }
    let n = store.revocations.count;
    let at = tables::revocations::find(&store.revocations.digests, n, digest);
    if at.0 < n {
        let by = tables::revocations::key_at(&store.revocations.issuer, at);
        return crate::put::put_revocation(
            &store.keys.table,
            &store.revocations.revoked,
            at,
            by,
            issuer,
            revoked,
        );
    }
    Ok(None)
}
