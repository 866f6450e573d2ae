// One pass rooted at r: a walk over the levels from Admin down, in which the lowest key of a level's word is expanded next.
// A step never raises a level, so a key's first level is its greatest, and each key is expanded at most once.

ghost use Rattle.std.specs.Prelude.{◌+◌, ◌<◌, ◌≤◌};
ghost use Rattle.places.specs.Limits.{key_limit, level_count};
ghost use Rattle.search.specs.Delegations.{graph_of};
ghost use Rattle.search.specs.Walk.{Grown, Relaxed, Led, Joins, Sound, Row};

use crate::Levels;
use crate::delegations::Delegations;
use places::{ADMIN, KEY_LIMIT, LEVEL_COUNT};

// One delegation whose issuer stands at v: its audience at the lesser of v and the delegation's level.
fn relax(v: usize, grade: u8, audience: u8, exclude: u64, buckets: &mut [u64; LEVEL_COUNT])
    requires { (v < level_count) × (grade ≤ level_count) × (audience < key_limit) }
    ensures { Grown buckets.old buckets.new (Relaxed v grade audience exclude) }
{
    if grade != 0 {
        let l = v.min(usize::from(grade - 1));
        let one = keyset::minus(keyset::only(usize::from(audience)), exclude);
        buckets[l] = keyset::union(buckets[l], one);
    }
}

// Rule D2: the delegations about r of u, which stands over r at v.
fn relax_edges(
    delegations: &Delegations,
    exclude: u64,
    r: usize,
    u: usize,
    v: usize,
    buckets: &mut [u64; LEVEL_COUNT],
)
    requires { (r < key_limit) × (u < key_limit) × (v < level_count) }
    ensures { Grown buckets.old buckets.new (Led (graph_of delegations.now exclude) r u v 0) }
{
    let grades = delegations.grades;
    let audience = delegations.audience;
    let edges = delegations.edges;
    let mut next = usize::from(edges.last[r * KEY_LIMIT + u]);
    while next > 0 {
        let d = next - 1;
        relax(v, grades[d], audience[d], exclude, buckets);
        next = usize::from(edges.earlier[d]);
    }
}

// Rule D3: the members of u, which stands at v, as found so far. A member's level is the lesser of the two, so the words at v and below count.
fn relax_members(u: usize, v: usize, levels: &Levels, buckets: &mut [u64; LEVEL_COUNT])
    requires { (u < key_limit) × (v < level_count) }
    ensures { Grown buckets.old buckets.new (Joins levels.now u (v + 1)) }
{
    for l in 0..v + 1 {
        buckets[l] = keyset::union(buckets[l], levels[u * LEVEL_COUNT + l]);
    }
}

// r's row: for each level the keys that stand over r at it or above, by the levels found so far.
// Only a key that issued about r, or that is a subject itself, has anything to add, so no other is expanded.
pub fn widest(
    delegations: &Delegations,
    exclude: u64,
    r: usize,
    levels: &Levels,
) -> [u64; LEVEL_COUNT]
    requires sound { Sound (graph_of delegations.now exclude) levels.now }
    requires root { r < key_limit }
    ensures { Row (graph_of delegations.now exclude) r levels.now result }
{
    let mut buckets = [0u64; LEVEL_COUNT];
    if keyset::has(exclude, r) {
        return buckets;
    }
    let active = keyset::union(delegations.edges.issuers[r], delegations.subjects);
    buckets[ADMIN] = keyset::only(r);
    let mut settled = 0;
    let mut above = LEVEL_COUNT;
    while above > 0 {
        let v = above - 1;
        let w = keyset::minus(keyset::meet(buckets[v], active), settled);
        if w != 0 {
            let u = keyset::lowest(w);
            settled = keyset::with(settled, u);
            relax_edges(delegations, exclude, r, u, v, &mut buckets);
            relax_members(u, v, levels, &mut buckets);
        } else {
            if v > 0 {
                buckets[v - 1] = keyset::union(buckets[v - 1], buckets[v]);
            }
            above = v;
        }
    }
    buckets
}
