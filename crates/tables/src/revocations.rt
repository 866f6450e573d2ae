// The held revocations: their digests, a table of runs, and a column for each thing that a revocation says.
ghost use Rattle.std.specs.Prelude.{◌≡◌, ◌<◌, ◌*◌, length, get_or, set};
ghost use Rattle.lent.specs.Bytes.{put};
ghost use Rattle.runs.specs.Bytes.{run_length};
ghost use Rattle.runs.specs.Members.{place};
ghost use Rattle.runs.specs.Table.{runs, GoodRuns};
ghost use Rattle.keyline.specs.Limits.{revocation_limit, key_limit, digest_length};
ghost use Rattle.tables.specs.Columns.{key_place};

use keyline::limits::REVOCATION_LIMIT;
use places::{KeyPlace, RevocationPlace};
use runs::bytes::RUN_LENGTH;
use runs::table::SMALL_TABLE;
use runs::{bytes, table};

#[derive(Clone, Copy)]
pub struct Revocations {
    pub digests: [u8; SMALL_TABLE],
    pub count: usize,
    pub issuer: [u8; REVOCATION_LIMIT],
    pub revoked: [u8; RUN_LENGTH * REVOCATION_LIMIT],
}

// The place of a digest; its number is n where the digest is not held.
pub fn find(digests: &[u8], n: usize, digest: &[u8]) -> RevocationPlace
    requires { GoodRuns revocation_limit digests.now n }
    ensures { result.0 ≡ place (runs digests.now n) digest.now }
{
    RevocationPlace(table::find(digests, REVOCATION_LIMIT, n, digest))
}

// The key whose place stands in a column; the first past its end.
pub fn key_at(column: &[u8], at: RevocationPlace) -> KeyPlace
    ensures { result ≡ key_place (get_or column.now at.0 0) }
{
    let i = at.0;
    if i < column.len() {
        return KeyPlace(usize::from(column[i]));
    }
    KeyPlace(0)
}

pub fn set_key(column: &mut [u8; REVOCATION_LIMIT], at: RevocationPlace, key: KeyPlace)
    requires { (length column.old ≡ revocation_limit) × (at.0 < revocation_limit) × (key.0 < key_limit) }
    ensures { column.new ≡ set column.old at.0 key.0 }
{
    let i = at.0;
    column[i] = key.0 as u8;
}

pub fn put_revoked(
    column: &mut [u8; RUN_LENGTH * REVOCATION_LIMIT],
    at: RevocationPlace,
    revoked: &[u8],
)
    requires { (length column.old ≡ run_length * revocation_limit) × (at.0 < revocation_limit) × (length revoked.now ≡ digest_length) }
    ensures { column.new ≡ put column.old (run_length * at.0) revoked.now }
{
    bytes::put_run(column, at.0, revoked);
}
