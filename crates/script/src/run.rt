// A whole script: measured first, so that a refused one touches nothing, then performed request by request.
ghost use Rattle.std.specs.Prelude.{◌≤◌, length};
ghost use Rattle.tables.specs.Committed.{nothing};
ghost use Rattle.wire.specs.Request.{Script};
ghost use Rattle.script.specs.Run.{script_limit, Runs, MeasuredAs, RanAs};

use crate::{answer, ask};
use keyline::refusal::Refusal;
use keyline_memory::state::State;
use wire::operation::{Change, Operation};
use wire::reply::HEAD;
use wire::request;
use wire::request::HEADER;

// The longest script.
const SCRIPT_LIMIT: usize = 16777216;

// How many bytes the replies of a script take.
fn measure(script: &[u8]) -> Result<usize, Refusal>
    requires { length script.now ≤ script_limit }
    ensures { MeasuredAs script.now result }
{
    let mut at = 0;
    let mut n = 0;
    // No `chunks`: a request is as long as its head says.
    while at < script.len() {
        let step = request::next_step(&script[at..])?;
        at += step.request;
        n += step.reply;
    }
    Ok(n)
}

// The requests one by one, each reply behind those before it.
fn perform(script: &[u8], answers: &mut [u8])
    requires { Script script.now (length answers.old) }
    ensures { Runs nothing nothing script.now answers.old answers.new }
{
    let mut state = State::new();
    let mut evaluated = state.evaluate();
    let mut at = 0;
    let mut done = 0;
    // The same: the request and its room end where its head says.
    while at < script.len() {
        let q = request::next_request(&script[at..], answers.len() - done);
        let start = at;
        let from = done;
        at = start + HEADER + q.first + q.second + q.third;
        done = from + HEAD + q.room + q.other;
        match q.operation {
            Some(Operation::Change(asked)) => match asked {
                Change::New => {
                    state = State::new();
                    answer::answer_done(q, &mut answers[from..done]);
                }
                Change::InsertDelegation => {
                    let told = ask::insert_delegation(&mut state, q, &script[start..]);
                    answer::answer_inserted(told, q, &mut answers[from..done]);
                }
                Change::InsertRevocation => {
                    let told = ask::insert_revocation(&mut state, q, &script[start..]);
                    answer::answer_inserted(told, q, &mut answers[from..done]);
                }
            },
            Some(Operation::Evaluate) => {
                evaluated = state.evaluate();
                answer::answer_done(q, &mut answers[from..done]);
            }
            Some(Operation::OfState(asked)) => {
                answer::answer_asked(&state, asked, q, &script[start..], &mut answers[from..done]);
            }
            Some(Operation::OfEvaluated(asked)) => {
                answer::answer_asked(
                    &evaluated,
                    asked,
                    q,
                    &script[start..],
                    &mut answers[from..done],
                );
            }
            None => {}
        }
    }
}

// Runs a script from the empty set; how many bytes of answers it gave. Where it is refused, no byte of the answers is touched.
pub fn run(script: &[u8], answers: &mut [u8]) -> Result<usize, Refusal>
    ensures { RanAs script.now answers.old result answers.new }
{
    if SCRIPT_LIMIT < script.len() {
        return Err(Refusal::BadLength(script.len()));
    }
    let n = measure(script)?;
    if answers.len() < n {
        return Err(Refusal::SmallBuffer(n));
    }
    perform(script, &mut answers[0..n]);
    Ok(n)
}
