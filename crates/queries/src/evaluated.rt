// The set with its evaluation and with hints where to look first, one value, so that no question can be put to the evaluation of another set. The
// questions are those of powers, standings and gathered, each put to the two.
ghost use Rattle.answers.specs.Answers.{PositivePower, EffectivePower, ConveyedPower, IsLive, StandingAnswer, MembersAnswer, ClosureAnswer};
ghost use Rattle.std.specs.Prelude.{◌≡◌, ◌+◌, ◌<◌, Ok, IfSome};
ghost use Rattle.runs.specs.Bytes.{run_length};
ghost use Rattle.answers.specs.Sought.{PairOf, DelegationOf};
ghost use Rattle.answers.specs.declared.sought.Pair.TheVariants.{At};
ghost use Rattle.store.specs.Store.{committed};
ghost use Rattle.queries.specs.Evaluated.{held_by, GoodEvaluated};

use answers::{answer, facts, sought};
use evaluation::Evaluation;
use hints::{BACK, FRONT, Hints, SLOTS};
use keyline::refusal::Refusal;
use keyline::standing::Standing;
use lists::write::Counts;
use places::{DelegationPlace, KeyPlace};
use power_levels::power::Power;
use store::Store;

#[derive(Clone, Copy)]
pub struct Evaluated {
    store: Store,
    evaluation: Evaluation,
    front: Hints,
    back: Hints,
}

// The evaluation of the set as it stands; every question is put to what it gives.
pub fn evaluate(store: &Store) -> Evaluated
    ensures { GoodEvaluated result × (held_by result ≡ committed store.now) }
{
    let facts = facts::facts(store);
    let evaluation = evaluation::evaluate(facts);
    let front = hints::hints_of(store, FRONT);
    let back = hints::hints_of(store, BACK);
    Evaluated {
        store: *store,
        evaluation,
        front,
        back,
    }
}

impl Evaluated {
    // Where two keys stand, if the hints of one way are right for both.
    fn hinted(
        &self,
        hints: &[u8; SLOTS],
        way: usize,
        subject: &[u8],
        audience: &[u8],
    ) -> Option<(KeyPlace, KeyPlace)>
        requires { GoodEvaluated self.now × (way + 1 < run_length) }
        ensures { IfSome result (λ p. PairOf self.now.store.keys.table self.now.store.keys.count subject.now audience.now (Ok (At p.0 p.1))) }
    {
        let keys = &self.store.keys;
        let s = hints::look(&keys.table, keys.count, hints, way, subject)?;
        let x = hints::look(&keys.table, keys.count, hints, way, audience)?;
        Some((KeyPlace(s), KeyPlace(x)))
    }

    // Where the delegation stands: as one of two hints has it, else as its digest is found.
    fn seek_delegation(&self, digest: &[u8]) -> Result<Option<DelegationPlace>, Refusal>
        requires { GoodEvaluated self.now }
        ensures { DelegationOf self.now.store.delegations.digests self.now.store.delegations.count digest.now result }
    {
        let n = self.store.delegations.count;
        let digests = &self.store.delegations.digests;
        if let Some(d) = hints::look(digests, n, &self.front.delegations, FRONT, digest) {
            return Ok(Some(DelegationPlace(d)));
        }
        if let Some(d) = hints::look(digests, n, &self.back.delegations, BACK, digest) {
            return Ok(Some(DelegationPlace(d)));
        }
        sought::seek_delegation(digests, n, digest)
    }

    // The audience's power over the subject, were nothing ever revoked.
    pub fn positive_power(&self, subject: &[u8], audience: &[u8]) -> Result<Option<Power>, Refusal>
        requires { GoodEvaluated self.now }
        ensures { PositivePower (held_by self.now) subject.now audience.now result }
    {
        if let Some((s, x)) = self.hinted(&self.front.keys, FRONT, subject, audience) {
            return Ok(answer::level_of(self.evaluation.positive_power(s, x)));
        }
        if let Some((s, x)) = self.hinted(&self.back.keys, BACK, subject, audience) {
            return Ok(answer::level_of(self.evaluation.positive_power(s, x)));
        }
        powers::positive_power(&self.store, &self.evaluation, subject, audience)
    }

    // The audience's power over the subject. Nobody holds effectively what he does not hold positively, and most keys hold nothing.
    pub fn effective_power(&self, subject: &[u8], audience: &[u8]) -> Result<Option<Power>, Refusal>
        requires { GoodEvaluated self.now }
        ensures { EffectivePower (held_by self.now) subject.now audience.now result }
    {
        match self.positive_power(subject, audience)? {
            None => Ok(None),
            Some(_) => powers::effective_power(&self.store, &self.evaluation, subject, audience),
        }
    }

    // What the delegation conveys.
    pub fn conveyed_power(&self, digest: &[u8]) -> Result<Option<Power>, Refusal>
        requires { GoodEvaluated self.now }
        ensures { ConveyedPower (held_by self.now) digest.now result }
    {
        let asked = self.seek_delegation(digest);
        powers::conveyed_power(&self.store, &self.evaluation, asked, digest)
    }

    // Live, revoked or unsupported.
    pub fn standing(&self, digest: &[u8]) -> Result<Option<Standing>, Refusal>
        requires { GoodEvaluated self.now }
        ensures { StandingAnswer (held_by self.now) digest.now result }
    {
        let asked = self.seek_delegation(digest);
        standings::standing(&self.store, &self.evaluation, asked, digest)
    }

    // Whether the delegation is live.
    pub fn is_live(&self, digest: &[u8]) -> Result<bool, Refusal>
        requires { GoodEvaluated self.now }
        ensures { IsLive (held_by self.now) digest.now result }
    {
        let asked = self.seek_delegation(digest);
        standings::is_live(&self.store, &self.evaluation, asked, digest)
    }

    // The members of the subject, ascending: keys in one buffer, power bytes in another. The count comes from ones.
    pub fn members(
        &self,
        subject: &[u8],
        keys: &mut [u8],
        powers: &mut [u8],
    ) -> Result<usize, Refusal>
        requires { GoodEvaluated self.now }
        ensures { MembersAnswer (held_by self.now) subject.now keys.old powers.old result keys.new powers.new }
    {
        gathered::members::members(&self.store, &self.evaluation, subject, keys, powers)
    }

    // Every held delegation whose subject is the one given or stands positively over it, and every held revocation that names one of them.
    pub fn closure(&self, subject: &[u8], out: &mut [u8]) -> Result<Counts, Refusal>
        requires { GoodEvaluated self.now }
        ensures { ClosureAnswer (held_by self.now) subject.now out.old result out.new }
    {
        gathered::closure::closure(&self.store, &self.evaluation, subject, out)
    }
}
