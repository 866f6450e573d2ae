// Insertion into a store. It first works out its answer from the tables as they are lent, and only where that is Added changes them, where they
// lie: so a refusal leaves the store as it was.
#![tactic(auto)]

ghost use Rattle.std.specs.Prelude.{◌≡◌, false};
ghost use Rattle.codec.specs.Delegation.{decoded};
ghost use Rattle.tables.specs.Insertion.{read_rank, is_added, settled, delegation_answer, delegation_added, revocation_answer, revocation_added};
ghost use Rattle.store.specs.Store.{committed};

use keyline::limits::KEY_LENGTH;
use keyline::refusal::Refusal;
use places::{DelegationPlace, KeyPlace, RevocationPlace};
use runs::table;
use runs::table::{LARGE_LIMIT, SMALL_LIMIT};
use store::Store;
use tables::answer::{Outcome, is_added};

// The rank of a payload's power.
fn rank_of(payload: &[u8]) -> u8
    ensures { result ≡ read_rank (decoded payload.now) }
{
    match codec::delegation::decode(payload) {
        Err(_) => 0,
        Ok(found) => found.power.rank(),
    }
}

pub fn insert_delegation(
    store: &mut Store,
    digest: &[u8],
    issuer: &[u8],
    payload: &[u8],
) -> Result<Outcome, Refusal>
    ensures answer { result ≡ delegation_answer (committed store.old) digest.now issuer.now payload.now }
    ensures held { committed store.new ≡ settled result (committed store.old) (delegation_added (committed store.old) digest.now issuer.now payload.now) }
    ensures kept { is_added result ≡ false → store.new ≡ store.old }
{
    let n = store.delegations.count;
    let at = tables::delegations::find(&store.delegations.digests, n, digest);
    let row = tables::delegations::row(
        &store.delegations.issuer,
        &store.delegations.audience,
        &store.delegations.subject,
        &store.delegations.power,
        &store.delegations.cited,
        at,
    );
    let m = store.keys.count;
    let answer = tables::answer::delegation_answer(
        &store.keys.table,
        m,
        &store.delegations.citation,
        n,
        at,
        row,
        digest,
        issuer,
        payload,
    );
    if !is_added(answer) {
        return answer;
    }
    let i = table::intern(&mut store.keys.table, SMALL_LIMIT, m, issuer);
    let a = table::intern(
        &mut store.keys.table,
        SMALL_LIMIT,
        i.count,
        &payload[0..KEY_LENGTH],
    );
    let u = table::intern(
        &mut store.keys.table,
        SMALL_LIMIT,
        a.count,
        &payload[KEY_LENGTH..KEY_LENGTH + KEY_LENGTH],
    );
    store.keys.count = u.count;
    let new = DelegationPlace(n);
    tables::delegations::set_key(&mut store.delegations.issuer, new, KeyPlace(i.place));
    tables::delegations::set_key(&mut store.delegations.audience, new, KeyPlace(a.place));
    tables::delegations::set_key(&mut store.delegations.subject, new, KeyPlace(u.place));
    tables::delegations::set_rank(&mut store.delegations.power, new, rank_of(payload));
    let citation = codec::delegation::citation(payload);
    tables::delegations::set_flag(&mut store.delegations.cited, new, citation.len() != 0);
    tables::delegations::put_citation(&mut store.delegations.citation, new, citation);
    table::push(&mut store.delegations.digests, LARGE_LIMIT, n, digest);
    store.delegations.count = n + 1;
    store.version += 1;
    answer
}

pub fn insert_revocation(
    store: &mut Store,
    digest: &[u8],
    issuer: &[u8],
    revoked: &[u8],
) -> Result<Outcome, Refusal>
    ensures answer { result ≡ revocation_answer (committed store.old) digest.now issuer.now revoked.now }
    ensures held { committed store.new ≡ settled result (committed store.old) (revocation_added (committed store.old) digest.now issuer.now revoked.now) }
    ensures kept { is_added result ≡ false → store.new ≡ store.old }
{
    let n = store.revocations.count;
    let at = tables::revocations::find(&store.revocations.digests, n, digest);
    let by = tables::revocations::key_at(&store.revocations.issuer, at);
    let m = store.keys.count;
    let answer = tables::answer::revocation_answer(
        &store.keys.table,
        m,
        &store.revocations.revoked,
        n,
        at,
        by,
        digest,
        issuer,
        revoked,
    );
    if !is_added(answer) {
        return answer;
    }
    let i = table::intern(&mut store.keys.table, SMALL_LIMIT, m, issuer);
    store.keys.count = i.count;
    let new = RevocationPlace(n);
    tables::revocations::set_key(&mut store.revocations.issuer, new, KeyPlace(i.place));
    tables::revocations::put_revoked(&mut store.revocations.revoked, new, revoked);
    table::push(&mut store.revocations.digests, SMALL_LIMIT, n, digest);
    store.revocations.count = n + 1;
    store.version += 1;
    answer
}
