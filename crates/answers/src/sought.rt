// The places of what a query is asked about: lengths first, in the order of the arguments; then whether it is held.
ghost use Rattle.keyline.specs.Limits.{key_limit, delegation_limit};
ghost use Rattle.runs.specs.Table.{GoodRuns};
ghost use Rattle.answers.specs.Sought.{PairOf, KeyOf, DelegationOf};

use keyline::limits::{DIGEST_LENGTH, KEY_LENGTH};
use keyline::refusal::Refusal;
use places::{DelegationPlace, KeyPlace};

// A subject and an audience: one key, or one of them not held, or both at their places.
#[derive(Clone, Copy)]
pub enum Pair {
    Same,
    Unheld,
    At(KeyPlace, KeyPlace),
}

pub fn seek_pair(table: &[u8], n: usize, subject: &[u8], audience: &[u8]) -> Result<Pair, Refusal>
    requires { GoodRuns key_limit table.now n }
    ensures { PairOf table.now n subject.now audience.now result }
{
    if subject.len() != KEY_LENGTH {
        return Err(Refusal::BadLength(subject.len()));
    }
    if audience.len() != KEY_LENGTH {
        return Err(Refusal::BadLength(audience.len()));
    }
    if runs::bytes::same_at(subject, 0, audience) {
        return Ok(Pair::Same);
    }
    let s = tables::keys::find(table, n, subject);
    if n <= s.0 {
        return Ok(Pair::Unheld);
    }
    let x = tables::keys::find(table, n, audience);
    if n <= x.0 {
        return Ok(Pair::Unheld);
    }
    Ok(Pair::At(s, x))
}

pub fn seek_key(table: &[u8], n: usize, subject: &[u8]) -> Result<Option<KeyPlace>, Refusal>
    requires { GoodRuns key_limit table.now n }
    ensures { KeyOf table.now n subject.now result }
{
    if subject.len() != KEY_LENGTH {
        return Err(Refusal::BadLength(subject.len()));
    }
    let s = tables::keys::find(table, n, subject);
    if n <= s.0 {
        return Ok(None);
    }
    Ok(Some(s))
}

pub fn seek_delegation(
    digests: &[u8],
    n: usize,
    digest: &[u8],
) -> Result<Option<DelegationPlace>, Refusal>
    requires { GoodRuns delegation_limit digests.now n }
    ensures { DelegationOf digests.now n digest.now result }
{
    if digest.len() != DIGEST_LENGTH {
        return Err(Refusal::BadLength(digest.len()));
    }
    let d = tables::delegations::find(digests, n, digest);
    if n <= d.0 {
        return Ok(None);
    }
    Ok(Some(d))
}
