// Stratum 2, level: the least fixed point of the caps of live covered delegations, rising from Relay.
//
// Each round raises a cap to the lesser of the stated power and the issuer's level with the context's keys excluded, under the caps before the
// round, and the last round raises none. Rising from the bottom keeps levels grounded: two covered delegations on each other's derivation
// cannot lift each other. The cap of an uncovered one would be the lesser of its power and its issuer's level: a search that steps along it
// takes that lesser anyway, so its grade is its power's.
#![tactic(auto)]

ghost use Rattle.std.specs.Prelude.{◌≡◌, ℕ, ◌+◌, ◌<◌, ◌≤◌, min, max, get_or};
ghost use Rattle.places.specs.Limits.{key_limit, delegation_limit, revocation_limit};
ghost use Rattle.search.specs.Sets.{Word};
ghost use Rattle.search.specs.Index.{Indexed};
ghost use Rattle.search.specs.Delegations.{graph_of};
ghost use Rattle.search.specs.Levels.{height};
ghost use Rattle.coverage.specs.Arrays.{Below};
ghost use Rattle.coverage.specs.Places.{Subject};
ghost use Rattle.coverage.specs.Coverage.{Nets};
ghost use Rattle.coverage.specs.Contexts.{Within, Put, Grouped, Agreeing};
ghost use Rattle.coverage.specs.Lives.{Starts};
ghost use Rattle.caps.specs.Caps.{Alive, Raised, Lifted, Capped};

use coverage::contexts::Groups;
use coverage::{Facts, members};
use places::{DELEGATION_LIMIT, KEY_LIMIT, KeyPlace, LEVEL_COUNT, REVOCATION_LIMIT};
use search::Levels;
use search::delegations::Delegations;
use search::edges::Edges;

// The revocations that name a live covered delegation.
fn living(
    target: &[u8; REVOCATION_LIMIT],
    m: usize,
    n: usize,
    excluded: &[u64; DELEGATION_LIMIT],
    grades: &[u8; DELEGATION_LIMIT],
) -> u64
    requires { (m ≤ revocation_limit) × (n ≤ delegation_limit) }
    ensures { Word result (Below m (Alive target.now n excluded.now grades.now)) }
{
    let mut w = 0;
    for j in 0..m {
        let d = usize::from(target[j]);
        if d < n && excluded[d] != 0 && grades[d] != 0 {
            w = keyset::with(w, j);
        }
    }
    w
}

// The caps of the delegations that the members name, raised to what their issuers' levels support.
fn raise(
    members: u64,
    facts: &Facts,
    delegations: &Delegations,
    found: &Levels,
    next: &mut [u8; DELEGATION_LIMIT],
)
    requires within { Within members facts.now.target }
    requires subject_lt { (d : ℕ) → get_or delegations.now.subject.now d 0 < key_limit }
    ensures { Put members facts.now.target (λ d v. v ≡ max (get_or delegations.now.grades.now d 0) (min (get_or facts.now.power d 0 + 1) (height found.now (get_or delegations.now.subject.now d 0) (get_or delegations.now.issuer.now d 0)))) next.old next.new }
{
    let mut left = members;
    while left != 0 {
        let j = keyset::lowest(left);
        left = keyset::without(left, j);
        let d = usize::from(facts.target[j]);
        let level = search::levels::level(
            found,
            KeyPlace(usize::from(delegations.subject[d])),
            KeyPlace(usize::from(delegations.issuer[d])),
        );
        next[d] = delegations.grades[d].max((facts.power[d] + 1).min(level));
    }
}

// One context: a search with its keys excluded, and its members rise.
fn cap_context(
    members: u64,
    exclude: u64,
    facts: &Facts,
    delegations: &Delegations,
    next: &mut [u8; DELEGATION_LIMIT],
)
    requires within { Within members facts.now.target }
    requires subject_lt { (d : ℕ) → get_or delegations.now.subject.now d 0 < key_limit }
    ensures { Put members facts.now.target (Raised (graph_of delegations.now exclude) facts.now.power) next.old next.new }
{
    let mut found = [0u64; KEY_LIMIT * LEVEL_COUNT];
    let from = members::roots(members, &facts.target, delegations);
    search::search(delegations, exclude, from, &mut found);
    raise(members, facts, delegations, &found, next);
}

// One round: every context with a live member, each under the caps before the round.
fn cap_round(
    living: u64,
    contexts: &Groups,
    facts: &Facts,
    delegations: &Delegations,
) -> [u8; DELEGATION_LIMIT]
    requires within { Within living facts.now.target }
    requires subject_lt { (d : ℕ) → get_or delegations.now.subject.now d 0 < key_limit }
    requires agreeing { Agreeing contexts.now.count contexts.now.exclude contexts.now.members facts.now.target }
    ensures { Lifted (graph_of delegations.now 0) facts.now.power facts.now.target living contexts.now.count contexts.now.exclude contexts.now.members result }
{
    let mut next = *delegations.grades;
    for c in 0..contexts.count {
        let m = keyset::meet(contexts.members[c], living);
        if m != 0 {
            cap_context(m, contexts.exclude[c], facts, delegations, &mut next);
        }
    }
    next
}

// The grades of the live delegations, those of covered ones at their caps.
pub fn caps(
    facts: &Facts,
    edges: &Edges,
    subjects: u64,
    contexts: &Groups,
    excluded: &[u64; DELEGATION_LIMIT],
    live: &[u8; DELEGATION_LIMIT],
) -> [u8; DELEGATION_LIMIT]
    requires subjects { Word subjects (Subject facts.now) }
    requires indexed { Indexed facts.now.issuer facts.now.subject facts.now.delegations edges.now.issuers edges.now.last edges.now.earlier }
    requires nets { Nets facts.now excluded.now × Grouped facts.now.target excluded.now facts.now.revocations facts.now.delegations contexts.now.count contexts.now.exclude contexts.now.members }
    requires starts { Starts facts.now live.now }
    ensures { Capped facts.now result }
{
    let n = facts.delegations;
    let m = facts.revocations;
    let alive = living(&facts.target, m, n, excluded, live);
    let mut grades = *live;
    loop {
        let delegations = Delegations {
            issuer: &facts.issuer,
            audience: &facts.audience,
            subject: &facts.subject,
            grades: &grades,
            edges,
            subjects,
        };
        let next = cap_round(alive, contexts, facts, &delegations);
        if next == grades {
            return grades;
        }
        grades = next;
    }
}
