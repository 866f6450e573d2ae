// What the tables hold, at places: the columns as they are, and for each revocation the place of the delegation that it names.
ghost use Rattle.std.specs.Prelude.{◌≡◌, ◌≤◌, ◌*◌, length};
ghost use Rattle.runs.specs.Bytes.{run_length};
ghost use Rattle.runs.specs.Table.{GoodRuns};
ghost use Rattle.keyline.specs.Limits.{delegation_limit, revocation_limit};
ghost use Rattle.coverage.specs.Places.{Fit};
ghost use Rattle.answers.specs.Facts.{FactsOf, Targets};

use coverage::Facts;
use keyline::limits::REVOCATION_LIMIT;
use runs::bytes;
use store::Store;

// The place of the delegation that each of the first m revocations names; n where no held one has the digest.
fn targets<'a>(digests: &'a [u8], n: usize, revoked: &'a [u8], m: usize) -> [u8; REVOCATION_LIMIT]
    requires { GoodRuns delegation_limit digests.now n × (m ≤ revocation_limit) × (length revoked.now ≡ run_length * revocation_limit) }
    ensures { (length result ≡ revocation_limit) × Targets digests.now n revoked.now m result }
{
    let mut target = [0; REVOCATION_LIMIT];
    for j in 0..m {
        let at = tables::delegations::find(digests, n, bytes::run_at(revoked, j));
        target[j] = at.0 as u8;
    }
    target
}

pub fn facts(store: &Store) -> Facts
    ensures { Fit result × FactsOf store.now result }
{
    let n = store.delegations.count;
    let m = store.revocations.count;
    Facts {
        issuer: store.delegations.issuer,
        audience: store.delegations.audience,
        subject: store.delegations.subject,
        power: store.delegations.power,
        delegations: n,
        revoker: store.revocations.issuer,
        target: targets(&store.delegations.digests, n, &store.revocations.revoked, m),
        revocations: m,
    }
}
