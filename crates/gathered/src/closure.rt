// The closure of a subject.
ghost use Rattle.answers.specs.Answers.{ClosureAnswer};
ghost use Rattle.store.specs.Store.{committed};
ghost use Rattle.powers.specs.EvaluationOf.{EvaluationOf};

use answers::{marks, sought};
use evaluation::Evaluation;
use keyline::limits::{DELEGATION_LIMIT, REVOCATION_LIMIT};
use keyline::refusal::Refusal;
use lists::write::Counts;
use store::Store;

// Every held delegation whose subject is the one given or stands positively over it, and every held revocation that names one of them.
pub fn closure(
    store: &Store,
    evaluation: &Evaluation,
    subject: &[u8],
    out: &mut [u8],
) -> Result<Counts, Refusal>
    requires { EvaluationOf store.now evaluation.now }
    ensures { ClosureAnswer (committed store.now) subject.now out.old result out.new }
{
    match sought::seek_key(&store.keys.table, store.keys.count, subject)? {
        None => Ok(Counts {
            delegations: 0,
            revocations: 0,
        }),
        Some(s) => {
            let nodes = evaluation.nodes(s);
            let d = store.delegations.count;
            let m = store.revocations.count;
            let dels = marks::in_nodes(&store.delegations.subject, d, nodes);
            let revs = marks::naming(&evaluation.facts.target, m, &dels, d);
            let delegations = &store.delegations.digests;
            let revocations = &store.revocations.digests;
            let a = runs::list::choose(delegations, DELEGATION_LIMIT, d, &dels);
            let b = runs::list::choose(revocations, REVOCATION_LIMIT, m, &revs);
            lists::write::write_both(delegations, revocations, a, b, out)
        }
    }
}
