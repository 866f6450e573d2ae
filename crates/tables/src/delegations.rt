// The held delegations: their digests, a table of runs, and a column for each thing that a delegation says.
ghost use Rattle.std.specs.Prelude.{◌≡◌, false, cond, ◌<◌, ◌*◌, length, get_or, set, eqb};
ghost use Rattle.lent.specs.Bytes.{put};
ghost use Rattle.runs.specs.Bytes.{run_length};
ghost use Rattle.runs.specs.Members.{place};
ghost use Rattle.runs.specs.Table.{runs, GoodRuns};
ghost use Rattle.keyline.specs.Limits.{delegation_limit, key_limit};
ghost use Rattle.tables.specs.Columns.{key_place, row_from};

use keyline::limits::DELEGATION_LIMIT;
use places::{DelegationPlace, KeyPlace};
use runs::bytes::RUN_LENGTH;
use runs::table::LARGE_TABLE;
use runs::{bytes, table};

// A key is named by its place in one byte, a power by its rank.
#[derive(Clone, Copy)]
pub struct Delegations {
    pub digests: [u8; LARGE_TABLE],
    pub count: usize,
    pub issuer: [u8; DELEGATION_LIMIT],
    pub audience: [u8; DELEGATION_LIMIT],
    pub subject: [u8; DELEGATION_LIMIT],
    pub power: [u8; DELEGATION_LIMIT],
    pub cited: [bool; DELEGATION_LIMIT],
    pub citation: [u8; RUN_LENGTH * DELEGATION_LIMIT],
}

// One row of the columns, but for the citation's bytes.
#[derive(Clone, Copy)]
pub struct DelegationRow {
    pub issuer: KeyPlace,
    pub audience: KeyPlace,
    pub subject: KeyPlace,
    pub power: u8,
    pub cited: bool,
}

// The place of a digest; its number is n where the digest is not held.
pub fn find(digests: &[u8], n: usize, digest: &[u8]) -> DelegationPlace
    requires { GoodRuns delegation_limit digests.now n }
    ensures { result.0 ≡ place (runs digests.now n) digest.now }
{
    DelegationPlace(table::find(digests, DELEGATION_LIMIT, n, digest))
}

// The key whose place stands in a column; the first past its end.
pub fn key_at(column: &[u8], at: DelegationPlace) -> KeyPlace
    ensures { result ≡ key_place (get_or column.now at.0 0) }
{
    let i = at.0;
    if i < column.len() {
        return KeyPlace(usize::from(column[i]));
    }
    KeyPlace(0)
}

pub fn rank_at(column: &[u8], at: DelegationPlace) -> u8
    ensures { result ≡ get_or column.now at.0 0 }
{
    let i = at.0;
    if i < column.len() {
        return column[i];
    }
    0
}

pub fn flag_at(column: &[bool], at: DelegationPlace) -> bool
    ensures { result ≡ get_or column.now at.0 false }
{
    let i = at.0;
    if i < column.len() {
        return column[i];
    }
    false
}

pub fn row<'a>(
    issuer: &'a [u8],
    audience: &'a [u8],
    subject: &'a [u8],
    power: &'a [u8],
    cited: &'a [bool],
    at: DelegationPlace,
) -> DelegationRow
    ensures { result ≡ row_from issuer.now audience.now subject.now power.now cited.now at.0 }
{
    let i = key_at(issuer, at);
    let a = key_at(audience, at);
    let s = key_at(subject, at);
    let p = rank_at(power, at);
    let c = flag_at(cited, at);
    DelegationRow {
        issuer: i,
        audience: a,
        subject: s,
        power: p,
        cited: c,
    }
}

pub fn set_key(column: &mut [u8; DELEGATION_LIMIT], at: DelegationPlace, key: KeyPlace)
    requires { (length column.old ≡ delegation_limit) × (at.0 < delegation_limit) × (key.0 < key_limit) }
    ensures { column.new ≡ set column.old at.0 key.0 }
{
    let i = at.0;
    column[i] = key.0 as u8;
}

pub fn set_rank(column: &mut [u8; DELEGATION_LIMIT], at: DelegationPlace, rank: u8)
    requires { (length column.old ≡ delegation_limit) × (at.0 < delegation_limit) }
    ensures { column.new ≡ set column.old at.0 rank }
{
    let i = at.0;
    column[i] = rank;
}

pub fn set_flag(column: &mut [bool; DELEGATION_LIMIT], at: DelegationPlace, flag: bool)
    requires { (length column.old ≡ delegation_limit) × (at.0 < delegation_limit) }
    ensures { column.new ≡ set column.old at.0 flag }
{
    let i = at.0;
    column[i] = flag;
}

// A citation's bytes; an empty one leaves the column as it was.
pub fn put_citation(
    column: &mut [u8; RUN_LENGTH * DELEGATION_LIMIT],
    at: DelegationPlace,
    citation: &[u8],
)
    requires { (length column.old ≡ run_length * delegation_limit) × (at.0 < delegation_limit) }
    ensures { column.new ≡ cond (eqb (length citation.now) run_length) (put column.old (run_length * at.0) citation.now) column.old }
{
    if citation.len() == RUN_LENGTH {
        bytes::put_run(column, at.0, citation);
    }
}
