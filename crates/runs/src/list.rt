// Lists in lent buffers: marked places in ascending order of their runs, and what stands at them. Every list of a store is one of
// these walks over a table's order, so that nothing is sorted.
ghost use Rattle.std.specs.Prelude.{◌≡◌, cond, map, ◌≤◌, length, take};
ghost use Rattle.lent.specs.Bytes.{front};
ghost use Rattle.runs.specs.Bytes.{run_at, joined};
ghost use Rattle.runs.specs.Table.{GoodRuns, order, large_limit};
ghost use Rattle.runs.specs.Chosen.{picked, Chose, Listable, Valued, values_at};

use crate::bytes;
use crate::bytes::RUN_LENGTH;
use crate::table::LARGE_LIMIT;

// Places, in ascending order of their runs: as many as count says.
#[derive(Clone, Copy)]
pub struct Chosen {
    pub places: [u8; LARGE_LIMIT],
    pub count: usize,
}

// The places of the table's runs whose mark is on.
pub fn choose(table: &[u8], limit: usize, n: usize, on: &[bool]) -> Chosen
    requires { GoodRuns limit table.now n × (limit ≤ large_limit) × (n ≤ length on.now) }
    ensures { Chose (picked on.now (order limit table.now n)) result }
{
    let start = RUN_LENGTH * limit;
    let mut c = Chosen {
        places: [0; LARGE_LIMIT],
        count: 0,
    };
    for j in 0..n {
        let b = table[start + j];
        c.places[c.count] = b;
        c.count += usize::from(on[usize::from(b)]);
    }
    c
}

// The runs at these places, one behind the other from the front of the buffer. Each is written by lending its own 32 bytes.
pub fn put_runs<'a>(table: &'a [u8], places: &'a [u8], k: usize, out: &mut [u8])
    requires { Listable table.now places.now k out.old }
    ensures { out.new ≡ front (joined (map (run_at table.now) (take k places.now))) out.old }
{
    for j in 0..k {
        bytes::put_run(out, j, bytes::run_at(table, usize::from(places[j])));
    }
}

// The values at these places, one behind the other from the front of the buffer.
pub fn put_values<'a>(values: &'a [u8], places: &'a [u8], k: usize, out: &mut [u8])
    requires { Valued values.now places.now k out.old }
    ensures { out.new ≡ front (values_at values.now (take k places.now)) out.old }
{
    for j in 0..k {
        out[j] = values[usize::from(places[j])];
    }
}
