// One evaluation of a store at places: what every query after an insertion shares. Stratum 1 (coverage) is blind to revocations; stratum 2 is
// the live set and the caps, each a crate of its name. Each question that is asked afterwards is a method of what it gives.
//
// A power and a level leave here as the byte that a row has, a level plus one and 0 for none: a row is a byte a key, and what makes an answer of
// a byte reads both.
#![tactic(auto)]

ghost use Rattle.std.specs.Prelude.{◌≡◌, ℕ, ◌<◌, get_or};
ghost use Rattle.places.specs.Limits.{key_limit};
ghost use Rattle.rules.specs.Rules.{PositiveIs, EffectiveIs, ConveyedIs, StandingIs, Node};
ghost use Rattle.rules.specs.Rows.{level_of};
ghost use Rattle.search.specs.Sets.{Word};
ghost use Rattle.coverage.specs.Places.{places};
ghost use Rattle.evaluation.specs.Result.{Evaluated, standing_of};

use coverage::Facts;
use keyline::standing::Standing;
use places::{ADMIN, DELEGATION_LIMIT, DelegationPlace, KEY_LIMIT, KeyPlace, LEVEL_COUNT};
use search::Levels;
use search::delegations::Delegations;

// What holds of every one (Evaluated) stands in the contracts and not in a ghost field: it has derivations in it, and those have more than one proof.
#[derive(Clone, Copy)]
pub struct Evaluation {
    pub facts: Facts,
    // the subjects of held delegations
    subjects: u64,
    // who stands positively over a subject, and at which level
    found: Levels,
    // who stands positively over a subject at all
    reach: [u64; KEY_LIMIT],
    // N(d) where d is covered, else 0
    excluded: [u64; DELEGATION_LIMIT],
    // of the live ones, else 0
    grades: [u8; DELEGATION_LIMIT],
}

pub fn evaluate(facts: Facts) -> Evaluation
    ensures { (result.facts ≡ facts) × Evaluated result }
{
    let n = facts.delegations;
    let m = facts.revocations;
    let subjects = coverage::positive::subjects(&facts.subject, n);
    let edges = search::edges::index(&facts.issuer, &facts.subject, n);
    let all = coverage::positive::powers(&facts.power, n);
    let delegations = Delegations {
        issuer: &facts.issuer,
        audience: &facts.audience,
        subject: &facts.subject,
        grades: &all,
        edges: &edges,
        subjects,
    };
    let mut found = [0u64; KEY_LIMIT * LEVEL_COUNT];
    search::search(&delegations, 0, subjects, &mut found);
    let reach = search::levels::reach(&found);
    let revokers = coverage::revokers(&facts.revoker, &facts.target, m, n);
    let excluded = coverage::coverage(&facts.subject, n, subjects, &revokers, &found);
    let contexts = coverage::contexts::contexts(&facts.target, m, n, &excluded);
    let live = live_set::live_set(&facts, &edges, subjects, &contexts, &revokers, &excluded);
    let grades = caps::caps(&facts, &edges, subjects, &contexts, &excluded, &live);
    Evaluation {
        facts,
        subjects,
        found,
        reach,
        excluded,
        grades,
    }
}

impl Evaluation {
    // Positive power: what the search found over a subject; over any other key only the key itself stands, at Admin.
    // The key's byte in the subject's positive row. Most keys stand nowhere in it, which one word tells.
    pub fn positive_power(&self, subject: KeyPlace, key: KeyPlace) -> u8
        requires { Evaluated self.now × (subject.0 < key_limit) × (key.0 < key_limit) }
        ensures { PositiveIs (places self.now.facts) subject.0 key.0 (level_of result) }
    {
        let s = subject.0;
        if keyset::has(self.subjects, s) {
            if !keyset::has(self.reach[s], key.0) {
                return 0;
            }
            return search::levels::level(&self.found, subject, key);
        }
        if key.0 == s { ADMIN as u8 + 1 } else { 0 }
    }

    // The keys that stand positively over a subject: a delegation is in the closure of s where its subject is one of them.
    pub fn nodes(&self, subject: KeyPlace) -> u64
        requires { Evaluated self.now × (subject.0 < key_limit) }
        ensures { Word result (Node (places self.now.facts) subject.0) }
    {
        let s = subject.0;
        if keyset::has(self.subjects, s) {
            return self.reach[s];
        }
        keyset::only(s)
    }

    // The effective row of one subject, a byte for each key: live delegations at their caps, nobody excluded.
    pub fn levels(&self, subject: KeyPlace) -> [u8; KEY_LIMIT]
        requires { Evaluated self.now × (subject.0 < key_limit) }
        ensures { (x : ℕ) → x < key_limit → EffectiveIs (places self.now.facts) subject.0 x (level_of (get_or result x 0)) }
    {
        let facts = &self.facts;
        let edges = search::edges::index(&facts.issuer, &facts.subject, facts.delegations);
        let delegations = Delegations {
            issuer: &facts.issuer,
            audience: &facts.audience,
            subject: &facts.subject,
            grades: &self.grades,
            edges: &edges,
            subjects: self.subjects,
        };
        let mut found = [0u64; KEY_LIMIT * LEVEL_COUNT];
        search::search(&delegations, 0, keyset::only(subject.0), &mut found);
        search::levels::row_of(&found, subject)
    }

    // What a live delegation conveys: its cap if it is covered, else the lesser of its power and its issuer's effective level; otherwise nothing.
    pub fn conveyed_power(&self, delegation: DelegationPlace) -> u8
        requires { Evaluated self.now × (delegation.0 < self.now.facts.delegations) }
        ensures { ConveyedIs (places self.now.facts) delegation.0 (level_of result) }
    {
        let d = delegation.0;
        let grade = self.grades[d];
        if grade == 0 {
            return 0;
        }
        if self.excluded[d] != 0 {
            return grade;
        }
        let row = self.levels(KeyPlace(usize::from(self.facts.subject[d])));
        grade.min(row[usize::from(self.facts.issuer[d])])
    }

    // The standing of a held delegation: a dead one is Revoked if a held revocation names it, else Unsupported.
    pub fn standing_of(&self, delegation: DelegationPlace) -> Standing
        requires { Evaluated self.now × (delegation.0 < self.now.facts.delegations) }
        ensures { StandingIs (places self.now.facts) delegation.0 (standing_of result) }
    {
        let d = delegation.0;
        if self.grades[d] != 0 {
            return Standing::Live;
        }
        if self.facts.target[..self.facts.revocations].contains(&(d as u8)) {
            return Standing::Revoked;
        }
        Standing::Unsupported
    }
}
