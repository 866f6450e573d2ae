// Chosen runs in a lent buffer, one list or two. The fit is tested before the first byte is written.
ghost use Rattle.std.specs.Prelude.{◌≡◌, length};
ghost use Rattle.lists.specs.Lists.{list_answer, list_buffer, both_answer, both_buffer};
ghost use Rattle.lists.specs.Marks.{chosen_runs, Stand};

use keyline::refusal::Refusal;
use runs::bytes::RUN_LENGTH;
use runs::list::Chosen;

// How many items two lists have that stand one behind the other.
#[derive(Clone, Copy, Debug, PartialEq, Eq)]
pub struct Counts {
    pub delegations: usize,
    pub revocations: usize,
}

// How many items were written, each of 32 bytes.
pub fn write_one(table: &[u8], c: Chosen, out: &mut [u8]) -> Result<usize, Refusal>
    requires { Stand table.now c }
    ensures answer { result ≡ list_answer (chosen_runs table.now c) (length out.old) }
    ensures out { out.new ≡ list_buffer result (chosen_runs table.now c) out.old }
{
    let k = c.count;
    let n = RUN_LENGTH * k;
    if out.len() < n {
        return Err(Refusal::SmallBuffer(n));
    }
    runs::list::put_runs(table, &c.places, k, out);
    Ok(k)
}

pub fn write_both<'a>(
    table: &'a [u8],
    other: &'a [u8],
    c: Chosen,
    d: Chosen,
    out: &mut [u8],
) -> Result<Counts, Refusal>
    requires { Stand table.now c × Stand other.now d }
    ensures answer { result ≡ both_answer (chosen_runs table.now c) (chosen_runs other.now d) (length out.old) }
    ensures out { out.new ≡ both_buffer result (chosen_runs table.now c) (chosen_runs other.now d) out.old }
{
    let k = c.count;
    let l = d.count;
    let n = RUN_LENGTH * k;
    let e = n + RUN_LENGTH * l;
    if out.len() < e {
        return Err(Refusal::SmallBuffer(e));
    }
    runs::list::put_runs(table, &c.places, k, out);
    runs::list::put_runs(other, &d.places, l, &mut out[n..e]);
    Ok(Counts {
        delegations: k,
        revocations: l,
    })
}
