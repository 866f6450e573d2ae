// A table of runs, each once: the runs in the order in which they came, and behind the room for runs their places in ascending
// order of the runs, one byte each (specs/Table). A search halves the order; an insertion moves up the bytes of the order behind it.
ghost use Rattle.std.specs.Prelude.{◌≡◌, ◌+◌, ◌-◌, ◌<◌, ◌≤◌, ◌∷◌, length, take, drop};
ghost use Rattle.lent.specs.Bytes.{put};
ghost use Rattle.runs.specs.Members.{place};
ghost use Rattle.runs.specs.Sorted.{sorted, spot};
ghost use Rattle.runs.specs.Table.{runs, GoodRuns, Room, Pushed, Internable, InternedAs};

use crate::bytes;
use crate::bytes::RUN_LENGTH;

// Tables are of two sizes: so many runs, in so many bytes.
pub const SMALL_LIMIT: usize = 64;

pub const LARGE_LIMIT: usize = 128;

pub const SMALL_TABLE: usize = (RUN_LENGTH + 1) * SMALL_LIMIT;

pub const LARGE_TABLE: usize = (RUN_LENGTH + 1) * LARGE_LIMIT;

// Where a run stands, and how many runs the table has then.
#[derive(Clone, Copy)]
pub struct Interned {
    pub place: usize,
    pub count: usize,
}

// How many runs of the table are below the one given: where it stands, or would stand, in ascending order.
fn rank(table: &[u8], limit: usize, n: usize, run: &[u8]) -> usize
    requires { GoodRuns limit table.now n }
    ensures { result ≡ spot run.now (sorted (runs table.now n)) }
{
    // No `partition_point`: it asks for a test that can be called on any byte, and this one needs a place of the table.
    let start = RUN_LENGTH * limit;
    let mut low = 0;
    let mut high = n;
    while low < high {
        let mid = low + (high - low) / 2;
        let i = usize::from(table[start + mid]);
        if bytes::less_at(table, i, run) {
            low = mid + 1;
        } else {
            high = mid;
        }
    }
    low
}

// The place of the run; n where the table has it not.
pub fn find(table: &[u8], limit: usize, n: usize, run: &[u8]) -> usize
    requires { GoodRuns limit table.now n }
    ensures { result ≡ place (runs table.now n) run.now }
{
    let p = rank(table, limit, n, run);
    if p < n {
        let i = usize::from(table[RUN_LENGTH * limit + p]);
        if bytes::same_at(table, i, run) {
            return i;
        }
    }
    n
}

// The bytes from a to e move up by one, and v stands at a.
fn shift(bytes: &mut [u8], a: usize, e: usize, v: u8)
    requires { (a ≤ e) × (e < length bytes.old) }
    ensures { bytes.new ≡ put bytes.old a (v ∷ take (e - a) (drop a bytes.old)) }
{
    bytes.copy_within(a..e, a + 1);
    bytes[a] = v;
}

// Puts a run that the table has not at place n.
pub fn push(table: &mut [u8], limit: usize, n: usize, run: &[u8])
    requires { Room limit table.old n run.now }
    ensures { Pushed limit table.old table.new n run.now }
{
    let p = rank(table, limit, n, run);
    let start = RUN_LENGTH * limit;
    shift(table, start + p, start + n, n as u8);
    bytes::put_run(table, n, run);
}

// The place of the run, which is put at place n where the table has it not.
pub fn intern(table: &mut [u8], limit: usize, n: usize, run: &[u8]) -> Interned
    requires { Internable limit table.old n run.now }
    ensures { InternedAs limit table.old table.new n run.now result }
{
    let i = find(table, limit, n, run);
    if i < n {
        return Interned { place: i, count: n };
    }
    push(table, limit, n, run);
    Interned {
        place: n,
        count: n + 1,
    }
}
