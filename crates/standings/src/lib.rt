// How a delegation stands whose place was sought, put to a store and its evaluation: live, revoked or unsupported, and whether it is live.
#![tactic(auto)]

ghost use Rattle.answers.specs.Answers.{IsLive, StandingAnswer};
ghost use Rattle.answers.specs.Sought.{DelegationOf};
ghost use Rattle.store.specs.Store.{committed};
ghost use Rattle.powers.specs.EvaluationOf.{EvaluationOf};

use evaluation::Evaluation;
use keyline::refusal::Refusal;
use keyline::standing::Standing;
use places::DelegationPlace;
use store::Store;

// Live, revoked or unsupported. Each has an arm of its own, so that each is proved by itself.
pub fn standing(
    store: &Store,
    evaluation: &Evaluation,
    asked: Result<Option<DelegationPlace>, Refusal>,
    digest: &[u8],
) -> Result<Option<Standing>, Refusal>
    requires { EvaluationOf store.now evaluation.now × DelegationOf store.now.delegations.digests store.now.delegations.count digest.now asked }
    ensures { StandingAnswer (committed store.now) digest.now result }
{
    match asked? {
        None => Ok(None),
        Some(d) => match evaluation.standing_of(d) {
            Standing::Live => Ok(Some(Standing::Live)),
            Standing::Revoked => Ok(Some(Standing::Revoked)),
            Standing::Unsupported => Ok(Some(Standing::Unsupported)),
        },
    }
}

// Whether the delegation is live.
pub fn is_live(
    store: &Store,
    evaluation: &Evaluation,
    asked: Result<Option<DelegationPlace>, Refusal>,
    digest: &[u8],
) -> Result<bool, Refusal>
    requires { EvaluationOf store.now evaluation.now × DelegationOf store.now.delegations.digests store.now.delegations.count digest.now asked }
    ensures { IsLive (committed store.now) digest.now result }
{
    match asked? {
        None => Ok(false),
        Some(d) => match evaluation.standing_of(d) {
            Standing::Live => Ok(true),
            Standing::Revoked => Ok(false),
            Standing::Unsupported => Ok(false),
        },
    }
}
