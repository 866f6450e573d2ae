// A certificate that was found: its two parts, in two lent buffers. Both fits are tested before the first byte is written.
ghost use Rattle.std.specs.Prelude.{◌≡◌, ◌≤◌, ◌<◌, ◌+◌, ◌*◌, length};
ghost use Rattle.lent.specs.Bytes.{front};
ghost use Rattle.runs.specs.Bytes.{run_length, run_at};
ghost use Rattle.tables.specs.Committed.{payload_of};
ghost use Rattle.tables.specs.Look.{RunFits, RowFits, RevocationFits, row_there};
ghost use Rattle.lookups.specs.Lookup.{parts_answer, part_buffer};

use keyline::limits::{DIGEST_LENGTH, KEY_LENGTH, PAYLOAD_LENGTH};
use keyline::refusal::Refusal;
use places::{DelegationPlace, KeyPlace, RevocationPlace};
use power_levels::power::Power;
use runs::bytes;
use runs::bytes::RUN_LENGTH;
use tables::delegations::DelegationRow;

// The run at a place, at the front of the buffer.
fn put_run<'a>(table: &'a [u8], i: usize, out: &mut [u8])
    requires { RunFits table.now i × (run_length ≤ length out.old) }
    ensures { out.new ≡ front (run_at table.now i) out.old }
{
    let a = RUN_LENGTH * i;
    bytes::put_item(&mut out[0..RUN_LENGTH], &table[a..a + RUN_LENGTH]);
}

// The payload that the delegation at a place came as, at the front of the buffer.
fn put_payload<'a>(
    keys: &'a [u8],
    citations: &'a [u8],
    at: DelegationPlace,
    row: DelegationRow,
    out: &mut [u8],
)
    requires { RowFits keys.now citations.now at row × (length (payload_of (row_there keys.now citations.now at row)) ≤ length out.old) }
    ensures { out.new ≡ front (payload_of (row_there keys.now citations.now at row)) out.old }
{
    let audience = row.audience;
    let subject = row.subject;
    let a = RUN_LENGTH * audience.0;
    let s = RUN_LENGTH * subject.0;
    let c = RUN_LENGTH * at.0;
    let e = c + RUN_LENGTH * usize::from(row.cited);
    let w = Power::from_rank(row.power).byte();
    let written = codec::delegation::encode(
        &keys[a..a + RUN_LENGTH],
        &keys[s..s + RUN_LENGTH],
        w,
        &citations[c..e],
        out,
    );
}

// Issuer and payload.
pub fn put_delegation<'a>(
    keys: &'a [u8],
    citations: &'a [u8],
    at: DelegationPlace,
    row: DelegationRow,
    issuer: &mut [u8],
    payload: &mut [u8],
) -> Result<Option<usize>, Refusal>
    requires { RowFits keys.now citations.now at row }
    ensures answer { result ≡ parts_answer (run_at keys.now row.issuer.0) (payload_of (row_there keys.now citations.now at row)) (length issuer.old) (length payload.old) }
    ensures issuer { issuer.new ≡ part_buffer result (run_at keys.now row.issuer.0) issuer.old }
    ensures payload { payload.new ≡ part_buffer result (payload_of (row_there keys.now citations.now at row)) payload.old }
{
    if issuer.len() < KEY_LENGTH {
        return Err(Refusal::SmallBuffer(KEY_LENGTH));
    }
    let n = PAYLOAD_LENGTH + RUN_LENGTH * usize::from(row.cited);
    if payload.len() < n {
        return Err(Refusal::SmallBuffer(n));
    }
    let i = row.issuer;
    put_run(keys, i.0, issuer);
    put_payload(keys, citations, at, row, payload);
    Ok(Some(n))
}

// Issuer and revoked digest.
pub fn put_revocation<'a>(
    keys: &'a [u8],
    column: &'a [u8],
    at: RevocationPlace,
    by: KeyPlace,
    issuer: &mut [u8],
    revoked: &mut [u8],
) -> Result<Option<usize>, Refusal>
    requires { RevocationFits keys.now column.now at by }
    ensures answer { result ≡ parts_answer (run_at keys.now by.0) (run_at column.now at.0) (length issuer.old) (length revoked.old) }
    ensures issuer { issuer.new ≡ part_buffer result (run_at keys.now by.0) issuer.old }
    ensures revoked { revoked.new ≡ part_buffer result (run_at column.now at.0) revoked.old }
{
    if issuer.len() < KEY_LENGTH {
        return Err(Refusal::SmallBuffer(KEY_LENGTH));
    }
    if revoked.len() < DIGEST_LENGTH {
        return Err(Refusal::SmallBuffer(DIGEST_LENGTH));
    }
    put_run(keys, by.0, issuer);
    put_run(column, at.0, revoked);
    Ok(Some(DIGEST_LENGTH))
}
