// What a request asks, from the byte that says it. docs/SCRIPT.md has the table.
ghost use Rattle.std.specs.Prelude.{◌≡◌};
ghost use Rattle.wire.specs.Operation.{change_of, of_state, of_evaluated, operation_of};

// What gives another set.
#[derive(Clone, Copy)]
pub enum Change {
    New,
    InsertDelegation,
    InsertRevocation,
}

// What is asked of the set.
#[derive(Clone, Copy)]
pub enum OfState {
    Version,
    Len,
    IsEmpty,
    ContainsDelegation,
    ContainsRevocation,
    Delegation,
    Revocation,
    Subjects,
    RevocationsOf,
    DelegationsTo,
    Certificates,
}

// What is asked of the evaluated set.
#[derive(Clone, Copy)]
pub enum OfEvaluated {
    PositivePower,
    EffectivePower,
    Members,
    IsLive,
    ConveyedPower,
    Standing,
    Closure,
}

#[derive(Clone, Copy)]
pub enum Operation {
    Change(Change),
    Evaluate,
    OfState(OfState),
    OfEvaluated(OfEvaluated),
}

fn change_of(byte: u8) -> Option<Operation>
    ensures { result ≡ change_of byte }
{
    match byte {
        0 => Some(Operation::Change(Change::New)),
        1 => Some(Operation::Change(Change::InsertDelegation)),
        2 => Some(Operation::Change(Change::InsertRevocation)),
        3 => Some(Operation::Evaluate),
        _ => None,
    }
}

fn of_state(byte: u8) -> Option<Operation>
    ensures { result ≡ of_state byte }
{
    match byte {
        16 => Some(Operation::OfState(OfState::Version)),
        17 => Some(Operation::OfState(OfState::Len)),
        18 => Some(Operation::OfState(OfState::IsEmpty)),
        19 => Some(Operation::OfState(OfState::ContainsDelegation)),
        20 => Some(Operation::OfState(OfState::ContainsRevocation)),
        21 => Some(Operation::OfState(OfState::Delegation)),
        22 => Some(Operation::OfState(OfState::Revocation)),
        23 => Some(Operation::OfState(OfState::Subjects)),
        24 => Some(Operation::OfState(OfState::RevocationsOf)),
        25 => Some(Operation::OfState(OfState::DelegationsTo)),
        26 => Some(Operation::OfState(OfState::Certificates)),
        _ => None,
    }
}

fn of_evaluated(byte: u8) -> Option<Operation>
    ensures { result ≡ of_evaluated byte }
{
    match byte {
        32 => Some(Operation::OfEvaluated(OfEvaluated::PositivePower)),
        33 => Some(Operation::OfEvaluated(OfEvaluated::EffectivePower)),
        34 => Some(Operation::OfEvaluated(OfEvaluated::Members)),
        35 => Some(Operation::OfEvaluated(OfEvaluated::IsLive)),
        36 => Some(Operation::OfEvaluated(OfEvaluated::ConveyedPower)),
        37 => Some(Operation::OfEvaluated(OfEvaluated::Standing)),
        38 => Some(Operation::OfEvaluated(OfEvaluated::Closure)),
        _ => None,
    }
}

// What the byte says, or None where it says nothing.
pub fn named(byte: u8) -> Option<Operation>
    ensures { result ≡ operation_of byte }
{
    if byte < 16 {
        return change_of(byte);
    }
    if byte < 32 {
        return of_state(byte);
    }
    of_evaluated(byte)
}
