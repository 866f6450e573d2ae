// Each operation as a call of State or Evaluated on the request's arguments and rooms.
ghost use Rattle.std.specs.Prelude.{◌≡◌, ◌≤◌, length, ⊤};
ghost use Rattle.runs.specs.Bytes.{Bytes};
ghost use Rattle.wire.specs.declared.reply.Reply.{Reply};
ghost use Rattle.keyline_memory.specs.State.{held_in, Insertion};
ghost use Rattle.queries.specs.Evaluated.{held_by, GoodEvaluated};
ghost use Rattle.tables.specs.Insertion.{delegation_answer, delegation_added, revocation_answer, revocation_added};
ghost use Rattle.wire.specs.Request.{request_of, length_of, first_part, second_part, third_part};
ghost use Rattle.script.specs.Run.{StateAnswers, EvaluatedAnswers};

use keyline::refusal::Refusal;
use keyline_memory::state::State;
use queries::evaluated::Evaluated;
use tables::answer::Outcome;
use wire::operation::{OfEvaluated, OfState};
use wire::reply;
use wire::reply::Reply;
use wire::request::{HEADER, Request};

// The insertions, with the request's arguments.
pub fn insert_delegation(state: &mut State, q: Request, script: &[u8]) -> Result<Outcome, Refusal>
    requires { (q ≡ request_of script.now) × (length_of q ≤ length script.now) }
    ensures { Insertion state.old state.new result (delegation_answer (held_in state.old) (first_part script.now) (second_part script.now) (third_part script.now)) (delegation_added (held_in state.old) (first_part script.now) (second_part script.now) (third_part script.now)) }
{
    let a = HEADER + q.first;
    let b = a + q.second;
    let c = b + q.third;
    state.insert_delegation(&script[HEADER..a], &script[a..b], &script[b..c])
}

pub fn insert_revocation(state: &mut State, q: Request, script: &[u8]) -> Result<Outcome, Refusal>
    requires { (q ≡ request_of script.now) × (length_of q ≤ length script.now) }
    ensures { Insertion state.old state.new result (revocation_answer (held_in state.old) (first_part script.now) (second_part script.now) (third_part script.now)) (revocation_added (held_in state.old) (first_part script.now) (second_part script.now) (third_part script.now)) }
{
    let a = HEADER + q.first;
    let b = a + q.second;
    let c = b + q.third;
    state.insert_revocation(&script[HEADER..a], &script[a..b], &script[b..c])
}

// What questions are put to, each with two arguments and two rooms.
pub trait Answer {
    // What may be asked.
    type Question;

    // Whether questions may be put.
    ghost good: { Self → Type 0 };

    // The question, the arguments and the rooms; then the reply, and the rooms afterwards.
    ghost answers: { Self → Self.Question → Bytes → Bytes → Bytes → Bytes → Reply → Bytes → Bytes → Type 0 };

    fn answer(
        &self,
        what: Self::Question,
        x: &[u8],
        y: &[u8],
        room: &mut [u8],
        other: &mut [u8],
    ) -> Reply
        requires { good self.now }
        ensures { answers self.now what x.now y.now room.old other.old result room.new other.new };
}

impl Answer for State {
    type Question = OfState;

    ghost good = { λ _. ⊤ };

    ghost answers = { λ s what x y p q. StateAnswers (held_in s) x y p q what };

    fn answer(
        &self,
        what: OfState,
        x: &[u8],
        y: &[u8],
        room: &mut [u8],
        other: &mut [u8],
    ) -> Reply {
        match what {
            OfState::Version => reply::valued(self.version() as usize),
            OfState::Len => reply::valued(self.len()),
            OfState::IsEmpty => reply::flagged(self.is_empty()),
            OfState::ContainsDelegation => Reply::from(self.contains_delegation(x)),
            OfState::ContainsRevocation => Reply::from(self.contains_revocation(x)),
            OfState::Delegation => Reply::from(self.delegation(x, room, other)),
            OfState::Revocation => Reply::from(self.revocation(x, room, other)),
            OfState::Subjects => Reply::from(self.subjects(room)),
            OfState::RevocationsOf => Reply::from(self.revocations_of(x, room)),
            OfState::DelegationsTo => Reply::from(self.delegations_to(x, y, room)),
            OfState::Certificates => Reply::from(self.certificates(room)),
        }
    }
}

impl Answer for Evaluated {
    type Question = OfEvaluated;

    ghost good = { GoodEvaluated };

    ghost answers = { λ e what x y p q. EvaluatedAnswers (held_by e) x y p q what };

    fn answer(
        &self,
        what: OfEvaluated,
        x: &[u8],
        y: &[u8],
        room: &mut [u8],
        other: &mut [u8],
    ) -> Reply {
        match what {
            OfEvaluated::PositivePower => Reply::from(self.positive_power(x, y)),
            OfEvaluated::EffectivePower => Reply::from(self.effective_power(x, y)),
            OfEvaluated::Members => Reply::from(self.members(x, room, other)),
            OfEvaluated::IsLive => Reply::from(self.is_live(x)),
            OfEvaluated::ConveyedPower => Reply::from(self.conveyed_power(x)),
            OfEvaluated::Standing => Reply::from(self.standing(x)),
            OfEvaluated::Closure => Reply::from(self.closure(x, room)),
        }
    }
}
