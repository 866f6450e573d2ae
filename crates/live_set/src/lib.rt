// Stratum 2, existence: the least fixed point of the live set, by rounds as the Rust's loop has them.
//
// Every uncovered delegation is usable from the first round: a search steps along one only from a key that it has reached. Each round judges
// the covered ones that are open against the grades before it, one search for each context, and the last round adds none.
#![tactic(auto)]

pub mod revoked_by_audience;

ghost use Rattle.std.specs.Prelude.{◌≡◌, true, false, ◌⊎◌, ℕ, ◌+◌, ◌*◌, ◌<◌, ◌≤◌, get_or, length};
ghost use Rattle.keyset.specs.Word.{bit};
ghost use Rattle.places.specs.Limits.{key_limit, delegation_limit, revocation_limit};
ghost use Rattle.rules.specs.Rules.{Admin};
ghost use Rattle.search.specs.Sets.{Says, Word, Among};
ghost use Rattle.search.specs.Graph.{Holds};
ghost use Rattle.search.specs.Index.{Indexed};
ghost use Rattle.search.specs.Delegations.{graph_of};
ghost use Rattle.search.specs.Levels.{Found};
ghost use Rattle.coverage.specs.Arrays.{Filled, Below};
ghost use Rattle.coverage.specs.Places.{Subject};
ghost use Rattle.coverage.specs.Coverage.{RevokersBy, Nets};
ghost use Rattle.coverage.specs.Contexts.{Within, Put, Grouped, In};
ghost use Rattle.coverage.specs.Lives.{Starts};
ghost use Rattle.live_set.specs.Live.{PlainAt, Fair, Open, Judged, SettledAt};

use crate::revoked_by_audience::revoked_by_audience;
use coverage::contexts::Groups;
use coverage::{Facts, members};
use places::{DELEGATION_LIMIT, KEY_LIMIT, KeyPlace, LEVEL_COUNT, REVOCATION_LIMIT};
use search::Levels;
use search::delegations::Delegations;
use search::edges::Edges;

// The uncovered ones of the first n delegations at their stated power.
fn plain(
    power: &[u8; DELEGATION_LIMIT],
    excluded: &[u64; DELEGATION_LIMIT],
    n: usize,
) -> [u8; DELEGATION_LIMIT]
    requires { (n ≤ delegation_limit) × ((d : ℕ) → get_or power.now d 0 ≤ Admin) }
    ensures { Filled n (PlainAt power.now excluded.now) result }
{
    let mut g = [0u8; DELEGATION_LIMIT];
    for d in 0..n {
        g[d] = if excluded[d] == 0 { power[d] + 1 } else { 0 };
    }
    g
}

// Whether the issuer or the subject is in the exclusion set.
fn excludes_an_endpoint(exclude: u64, issuer: usize, subject: usize) -> bool
    requires { (issuer < key_limit) × (subject < key_limit) }
    ensures { Says result ((bit exclude issuer ≡ 1) ⊎ (bit exclude subject ≡ 1)) }
{
    keyset::has(exclude, issuer) | keyset::has(exclude, subject)
}

// Whether a delegation is covered, neither its issuer nor its subject is excluded, and its audience has not revoked it.
fn eligible(exclude: u64, revokers: u64, issuer: usize, audience: usize, subject: usize) -> bool
    requires { (issuer < key_limit) × (audience < key_limit) × (subject < key_limit) }
    ensures { Says result (Fair exclude revokers issuer audience subject) }
{
    if exclude == 0 {
        return false;
    }
    if excludes_an_endpoint(exclude, issuer, subject) {
        return false;
    }
    !revoked_by_audience(revokers, audience)
}

// The revocations that name an eligible delegation.
fn eligibles<'a>(
    target: &'a [u8; REVOCATION_LIMIT],
    m: usize,
    n: usize,
    issuer: &'a [u8; DELEGATION_LIMIT],
    audience: &'a [u8; DELEGATION_LIMIT],
    subject: &'a [u8; DELEGATION_LIMIT],
    revokers: &[u64; DELEGATION_LIMIT],
    excluded: &[u64; DELEGATION_LIMIT],
) -> u64
    requires m_le_revocation_limit { (m ≤ revocation_limit) × (n ≤ delegation_limit) }
    requires by_index { (d : ℕ) → get_or issuer.now d 0 < key_limit }
    requires by_index_2 { (d : ℕ) → get_or audience.now d 0 < key_limit }
    requires by_index_3 { (d : ℕ) → get_or subject.now d 0 < key_limit }
    ensures { Word result (Below m (Open target.now n issuer.now audience.now subject.now revokers.now excluded.now)) }
{
    let mut w = 0;
    for j in 0..m {
        let d = usize::from(target[j]);
        if d < n
            && eligible(
                excluded[d],
                revokers[d],
                usize::from(issuer[d]),
                usize::from(audience[d]),
                usize::from(subject[d]),
            )
        {
            w = keyset::with(w, j);
        }
    }
    w
}

// One context: those of its members whose issuer stands over the subject with the grades given and the context's keys excluded.
fn judge(
    members: u64,
    exclude: u64,
    target: &[u8; REVOCATION_LIMIT],
    delegations: &Delegations,
) -> u64
    requires within { Within members target.now }
    requires subject_lt { (d : ℕ) → get_or delegations.now.subject.now d 0 < key_limit }
    ensures { Word result (Among members (λ j. Judged (graph_of delegations.now exclude) (get_or target.now j 0))) }
{
    let mut found = [0u64; KEY_LIMIT * LEVEL_COUNT];
    let from = members::roots(members, target, delegations);
    search::search(delegations, exclude, from, &mut found);
    members::reached(members, target, delegations, &found)
}

// All contexts that have a candidate, each judged against the same grades.
fn newly_live(
    candidates: u64,
    contexts: &Groups,
    target: &[u8; REVOCATION_LIMIT],
    delegations: &Delegations,
) -> u64
    requires within { Within candidates target.now }
    requires subject_lt { (d : ℕ) → get_or delegations.now.subject.now d 0 < key_limit }
    ensures { Word result (In contexts.now.count contexts.now.members (λ c j. (bit candidates j ≡ 1) × Judged (graph_of delegations.now (get_or contexts.now.exclude c 0)) (get_or target.now j 0))) }
{
    let mut w = 0;
    for c in 0..contexts.count {
        let m = keyset::meet(contexts.members[c], candidates);
        if m != 0 {
            let found = judge(m, contexts.exclude[c], target, delegations);
            w = keyset::union(w, found);
        }
    }
    w
}

// One round: what is reached with nobody excluded goes to base, and of those that wait the ones that join are returned.
// Reach that avoids some keys is part of reach that avoids none, so one whose issuer is not reached there is no candidate.
fn live_round(
    waiting: u64,
    contexts: &Groups,
    target: &[u8; REVOCATION_LIMIT],
    delegations: &Delegations,
    base: &mut Levels,
) -> u64
    requires within { Within waiting target.now }
    requires subject_lt { (d : ℕ) → get_or delegations.now.subject.now d 0 < key_limit }
    requires about { (j : ℕ) → bit waiting j ≡ 1 → bit delegations.now.subjects (get_or delegations.now.subject.now (get_or target.now j 0) 0) ≡ 1 }
    ensures found { Found (Holds (graph_of delegations.now 0)) delegations.now.subjects base.new }
    ensures word { Word result (In contexts.now.count contexts.now.members (λ c j. (bit waiting j ≡ 1) × Judged (graph_of delegations.now (get_or contexts.now.exclude c 0)) (get_or target.now j 0))) }
{
    *base = [0u64; KEY_LIMIT * LEVEL_COUNT];
    search::search(delegations, 0, delegations.subjects, base);
    let candidates = members::reached(waiting, target, delegations, base);
    newly_live(candidates, contexts, target, delegations)
}

// The delegations that the newly live ones name become usable at their stated power.
fn join<'a>(
    newly: u64,
    target: &'a [u8; REVOCATION_LIMIT],
    power: &'a [u8; DELEGATION_LIMIT],
    grades: &mut [u8; DELEGATION_LIMIT],
)
    requires { Within newly target.now × (length grades.old ≡ delegation_limit) × ((d : ℕ) → get_or power.now d 0 ≤ Admin) }
    ensures { Put newly target.now (λ d v. v ≡ get_or power.now d 0 + 1) grades.old grades.new }
{
    let mut left = newly;
    while left != 0 {
        let j = keyset::lowest(left);
        left = keyset::without(left, j);
        let d = usize::from(target[j]);
        grades[d] = power[d] + 1;
    }
}

// The grade from which a delegation's cap rises: Relay's where it is live and covered, its own where it is live and uncovered, none where it is dead.
fn settle(exclude: u64, grade: u8, stands: bool) -> u8
    ensures covered { 0 < exclude → 0 < grade → result ≡ 1 }
    ensures plain { exclude ≡ 0 → 0 < grade → stands ≡ true → result ≡ grade }
    ensures only { 0 < result → (exclude ≡ 0 → (stands ≡ true) × (result ≡ grade)) × (0 < grade) }
{
    if grade == 0 {
        0
    } else if exclude != 0 {
        1
    } else if stands {
        grade
    } else {
        0
    }
}

// The grades from which caps rise. An uncovered delegation is live when its issuer is reached with nobody excluded.
fn settled<'a>(
    issuer: &'a [u8; DELEGATION_LIMIT],
    subject: &'a [u8; DELEGATION_LIMIT],
    n: usize,
    excluded: &[u64; DELEGATION_LIMIT],
    grades: &[u8; DELEGATION_LIMIT],
    base: &Levels,
) -> [u8; DELEGATION_LIMIT]
    requires n_le_delegation_limit { n ≤ delegation_limit }
    requires by_index { (d : ℕ) → get_or issuer.now d 0 < key_limit }
    requires by_index_2 { (d : ℕ) → get_or subject.now d 0 < key_limit }
    ensures { Filled n (SettledAt issuer.now subject.now excluded.now grades.now base.now) result }
{
    let mut g = [0u8; DELEGATION_LIMIT];
    for d in 0..n {
        let stands = search::levels::reached(
            base,
            KeyPlace(usize::from(subject[d])),
            KeyPlace(usize::from(issuer[d])),
        );
        g[d] = settle(excluded[d], grades[d], stands);
    }
    g
}

// The live delegations, at the grades from which caps rise.
pub fn live_set(
    facts: &Facts,
    edges: &Edges,
    subjects: u64,
    contexts: &Groups,
    revokers: &[u64; DELEGATION_LIMIT],
    excluded: &[u64; DELEGATION_LIMIT],
) -> [u8; DELEGATION_LIMIT]
    requires subjects { Word subjects (Subject facts.now) }
    requires indexed { Indexed facts.now.issuer facts.now.subject facts.now.delegations edges.now.issuers edges.now.last edges.now.earlier }
    requires revokers_by { RevokersBy facts.now.revoker facts.now.target facts.now.revocations facts.now.delegations revokers.now × Nets facts.now excluded.now }
    requires grouped { Grouped facts.now.target excluded.now facts.now.revocations facts.now.delegations contexts.now.count contexts.now.exclude contexts.now.members }
    ensures { Starts facts.now result }
{
    let n = facts.delegations;
    let m = facts.revocations;
    let mut grades = plain(&facts.power, excluded, n);
    let mut waiting = eligibles(
        &facts.target,
        m,
        n,
        &facts.issuer,
        &facts.audience,
        &facts.subject,
        revokers,
        excluded,
    );
    let mut base = [0u64; KEY_LIMIT * LEVEL_COUNT];
    loop {
        let delegations = Delegations {
            issuer: &facts.issuer,
            audience: &facts.audience,
            subject: &facts.subject,
            grades: &grades,
            edges,
            subjects,
        };
        let newly = live_round(waiting, contexts, &facts.target, &delegations, &mut base);
        if newly == 0 {
            return settled(&facts.issuer, &facts.subject, n, excluded, &grades, &base);
        }
        join(newly, &facts.target, &facts.power, &mut grades);
        waiting = keyset::minus(waiting, newly);
    }
}
