// The answer to an insertion, from what the checks look at: nothing is written here.
ghost use Rattle.std.specs.Prelude.{◌≡◌, ◌<◌, ◌≤◌, length};
ghost use Rattle.runs.specs.Table.{GoodRuns};
ghost use Rattle.keyline.specs.Limits.{key_limit, key_length};
ghost use Rattle.tables.specs.Committed.{same_parts, same_revoked};
ghost use Rattle.tables.specs.Insertion.{is_added, held_answer, accepted_answer, delegation_check, revocation_check};
ghost use Rattle.tables.specs.Look.{argument, revocation_argument, RowFits, RevocationFits, row_there, revoked_there, delegation_there, revocation_there, room_answer};

use crate::delegations::DelegationRow;
use keyline::limits::{DELEGATION_LIMIT, DIGEST_LENGTH, KEY_LENGTH, KEY_LIMIT, REVOCATION_LIMIT};
use keyline::refusal::Refusal;
use places::{DelegationPlace, KeyPlace, RevocationPlace};
use power_levels::power::Power;
use runs::bytes;

// What an insertion that is not refused did.
#[derive(Clone, Copy, Debug, PartialEq, Eq)]
pub enum Outcome {
    Added,
    NotAdded,
}

pub fn is_added(answer: Result<Outcome, Refusal>) -> bool
    ensures { result ≡ is_added answer }
{
    matches!(answer, Ok(Outcome::Added))
}

// The digest is held: with equal content, or with other content.
fn held_answer(same: bool) -> Result<Outcome, Refusal>
    ensures { result ≡ held_answer same }
{
    if same {
        Ok(Outcome::NotAdded)
    } else {
        Err(Refusal::Conflict)
    }
}

// Of m keys and new ones more.
fn room_answer(m: usize, new: usize) -> Result<Outcome, Refusal>
    requires { (m ≤ key_limit) × (new ≤ key_limit) }
    ensures { result ≡ room_answer m new }
{
    if KEY_LIMIT < m + new {
        return Err(Refusal::FullKeys(new));
    }
    Ok(Outcome::Added)
}

// Whether the delegation at a place has this content, part by part.
fn same_content<'a>(
    keys: &'a [u8],
    citations: &'a [u8],
    at: DelegationPlace,
    row: DelegationRow,
    issuer: &[u8],
    audience: &[u8],
    subject: &[u8],
    power: Power,
    citation: &[u8],
) -> bool
    requires { RowFits keys.now citations.now at row }
    ensures { result ≡ same_parts (row_there keys.now citations.now at row) (argument issuer.now audience.now subject.now power citation.now) }
{
    let i = row.issuer;
    if !bytes::same_at(keys, i.0, issuer) {
        return false;
    }
    let a = row.audience;
    if !bytes::same_at(keys, a.0, audience) {
        return false;
    }
    let s = row.subject;
    if !bytes::same_at(keys, s.0, subject) {
        return false;
    }
    if row.power != power.rank() {
        return false;
    }
    if row.cited {
        return bytes::same_at(citations, at.0, citation);
    }
    citation.len() == 0
}

// The checks after the payload's.
fn accepted_answer<'a>(
    keys: &'a [u8],
    m: usize,
    citations: &'a [u8],
    n: usize,
    at: DelegationPlace,
    row: DelegationRow,
    issuer: &[u8],
    audience: &[u8],
    subject: &[u8],
    power: Power,
    citation: &[u8],
) -> Result<Outcome, Refusal>
    requires { GoodRuns key_limit keys.now m × (length issuer.now ≡ key_length) × (length audience.now ≡ key_length) × (length subject.now ≡ key_length) × (at.0 < n → RowFits keys.now citations.now at row) }
    ensures { result ≡ accepted_answer (delegation_there keys.now m citations.now n at row) (argument issuer.now audience.now subject.now power citation.now) }
{
    if at.0 < n {
        return held_answer(same_content(
            keys, citations, at, row, issuer, audience, subject, power, citation,
        ));
    }
    if DELEGATION_LIMIT <= n {
        return Err(Refusal::FullDelegations);
    }
    room_answer(
        m,
        crate::keys::fresh_three(keys, m, issuer, audience, subject),
    )
}

// The checks on a delegation, in document 01's order.
pub fn delegation_answer<'a>(
    keys: &'a [u8],
    m: usize,
    citations: &'a [u8],
    n: usize,
    at: DelegationPlace,
    row: DelegationRow,
    digest: &[u8],
    issuer: &[u8],
    payload: &[u8],
) -> Result<Outcome, Refusal>
    requires { GoodRuns key_limit keys.now m × (at.0 < n → RowFits keys.now citations.now at row) }
    ensures { result ≡ delegation_check (delegation_there keys.now m citations.now n at row) digest.now issuer.now payload.now }
{
    if digest.len() != DIGEST_LENGTH {
        return Err(Refusal::BadLength(digest.len()));
    }
    if issuer.len() != KEY_LENGTH {
        return Err(Refusal::BadLength(issuer.len()));
    }
    let found = codec::delegation::decode(payload)?;
    accepted_answer(
        keys,
        m,
        citations,
        n,
        at,
        row,
        issuer,
        found.audience,
        found.subject,
        found.power,
        found.citation,
    )
}

// Whether the revocation at a place has this content.
fn same_revoked<'a>(
    keys: &'a [u8],
    column: &'a [u8],
    at: RevocationPlace,
    by: KeyPlace,
    issuer: &[u8],
    revoked: &[u8],
) -> bool
    requires { RevocationFits keys.now column.now at by }
    ensures { result ≡ same_revoked (revoked_there keys.now column.now at by) (revocation_argument issuer.now revoked.now) }
{
    if !bytes::same_at(keys, by.0, issuer) {
        return false;
    }
    bytes::same_at(column, at.0, revoked)
}

// The checks on a revocation, in document 01's order.
pub fn revocation_answer<'a>(
    keys: &'a [u8],
    m: usize,
    column: &'a [u8],
    n: usize,
    at: RevocationPlace,
    by: KeyPlace,
    digest: &[u8],
    issuer: &[u8],
    revoked: &[u8],
) -> Result<Outcome, Refusal>
    requires { GoodRuns key_limit keys.now m × (at.0 < n → RevocationFits keys.now column.now at by) }
    ensures { result ≡ revocation_check (revocation_there keys.now m column.now n at by) digest.now issuer.now revoked.now }
{
    if digest.len() != DIGEST_LENGTH {
        return Err(Refusal::BadLength(digest.len()));
    }
    if issuer.len() != KEY_LENGTH {
        return Err(Refusal::BadLength(issuer.len()));
    }
    if revoked.len() != DIGEST_LENGTH {
        return Err(Refusal::BadLength(revoked.len()));
    }
    if at.0 < n {
        return held_answer(same_revoked(keys, column, at, by, issuer, revoked));
    }
    if REVOCATION_LIMIT <= n {
        return Err(Refusal::FullRevocations);
    }
    room_answer(m, crate::keys::fresh_one(keys, m, issuer))
}
