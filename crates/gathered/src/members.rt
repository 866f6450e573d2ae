// The members of a subject.
ghost use Rattle.answers.specs.Answers.{MembersAnswer};
ghost use Rattle.store.specs.Store.{committed};
ghost use Rattle.powers.specs.EvaluationOf.{EvaluationOf};

use answers::{marks, sought};
use evaluation::Evaluation;
use keyline::limits::{KEY_LENGTH, KEY_LIMIT};
use keyline::refusal::Refusal;
use store::Store;

// The members of the subject, ascending: keys in one buffer, power bytes in another. The count comes from ones.
pub fn members(
    store: &Store,
    evaluation: &Evaluation,
    subject: &[u8],
    keys: &mut [u8],
    powers: &mut [u8],
) -> Result<usize, Refusal>
    requires { EvaluationOf store.now evaluation.now }
    ensures { MembersAnswer (committed store.now) subject.now keys.old powers.old result keys.new powers.new }
{
    let n = store.keys.count;
    let table = &store.keys.table;
    match sought::seek_key(table, n, subject)? {
        None => Ok(0),
        Some(s) => {
            let row = evaluation.levels(s);
            let on = marks::member_marks(&row, n, s.0);
            let c = runs::list::choose(table, KEY_LIMIT, n, &on);
            let letters = marks::letters(&row);
            let k = keyset::count(marks::member_word(&row, n, s.0));
            let need = KEY_LENGTH * k;
            if keys.len() < need {
                return Err(Refusal::SmallBuffer(need));
            }
            if powers.len() < k {
                return Err(Refusal::SmallBuffer(k));
            }
            runs::list::put_runs(table, &c.places, k, keys);
            runs::list::put_values(&letters, &c.places, k, powers);
            Ok(k)
        }
    }
}
