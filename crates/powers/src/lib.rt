// A key's power over a subject, positive or effective, and what a delegation conveys: put to a store and its evaluation. The places of two keys are
// found here, that of a delegation comes with the question; the answer is what the evaluation says of those places.
#![tactic(auto)]

ghost use Rattle.answers.specs.Answers.{PositivePower, EffectivePower, ConveyedPower};
ghost use Rattle.answers.specs.Sought.{DelegationOf};
ghost use Rattle.store.specs.Store.{committed};
ghost use Rattle.powers.specs.EvaluationOf.{EvaluationOf};

use answers::sought::Pair;
use answers::{answer, sought};
use evaluation::Evaluation;
use keyline::refusal::Refusal;
use places::DelegationPlace;
use power_levels::power::Power;
use store::Store;

// The audience's power over the subject, were nothing ever revoked.
pub fn positive_power(
    store: &Store,
    evaluation: &Evaluation,
    subject: &[u8],
    audience: &[u8],
) -> Result<Option<Power>, Refusal>
    requires { EvaluationOf store.now evaluation.now }
    ensures { PositivePower (committed store.now) subject.now audience.now result }
{
    match sought::seek_pair(&store.keys.table, store.keys.count, subject, audience)? {
        Pair::Same => Ok(Some(Power::Admin)),
        Pair::Unheld => Ok(None),
        Pair::At(s, x) => Ok(answer::level_of(evaluation.positive_power(s, x))),
    }
}

// The audience's power over the subject.
pub fn effective_power(
    store: &Store,
    evaluation: &Evaluation,
    subject: &[u8],
    audience: &[u8],
) -> Result<Option<Power>, Refusal>
    requires { EvaluationOf store.now evaluation.now }
    ensures { EffectivePower (committed store.now) subject.now audience.now result }
{
    match sought::seek_pair(&store.keys.table, store.keys.count, subject, audience)? {
        Pair::Same => Ok(Some(Power::Admin)),
        Pair::Unheld => Ok(None),
        Pair::At(s, x) => {
            let row = evaluation.levels(s);
            Ok(answer::level_of(row[x.0]))
        }
    }
}

// What the delegation conveys.
pub fn conveyed_power(
    store: &Store,
    evaluation: &Evaluation,
    asked: Result<Option<DelegationPlace>, Refusal>,
    digest: &[u8],
) -> Result<Option<Power>, Refusal>
    requires { EvaluationOf store.now evaluation.now × DelegationOf store.now.delegations.digests store.now.delegations.count digest.now asked }
    ensures { ConveyedPower (committed store.now) digest.now result }
{
    match asked? {
        None => Ok(None),
        Some(d) => Ok(answer::level_of(evaluation.conveyed_power(d))),
    }
}
