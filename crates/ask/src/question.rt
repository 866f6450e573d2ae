// Which answer a question has. Each is worked out from the store as it stands at the question's line.
use crate::kernel::{Kind, Store};
use crate::list::Heading;
use crate::{graph, list, members, power};
use notation::statement::Question;
use std::io;

const BOTH: [Kind; 2] = [Kind::Delegation, Kind::Revocation];

pub(crate) fn answer(
    rt: &impl Print,
    store: &Store,
    question: Question,
    plain: bool,
) -> io::Result<()> {
    match question {
        Question::Members { subject } => {
            let listed = store.evaluate().members(&subject);
            members::members(rt, &subject, listed, plain)
        }
        Question::Power { subject, key } => {
            let power = store.evaluate().effective_power(&subject, &key);
            power::effective(rt, &subject, &key, power, plain)
        }
        Question::Positive { subject, key } => {
            let power = store.evaluate().positive_power(&subject, &key);
            power::positive(rt, &subject, &key, power, plain)
        }
        Question::Live { delegation } => {
            let live = store.evaluate().is_live(&delegation);
            power::live(rt, &delegation, live, plain)
        }
        Question::Conveys { delegation } => {
            let power = store.evaluate().conveyed_power(&delegation);
            power::conveys(rt, &delegation, power, plain)
        }
        Question::Standing { delegation } => {
            let standing = store.evaluate().standing(&delegation);
            power::standing(rt, &delegation, standing, plain)
        }
        Question::Closure { subject } => {
            let heading = Heading {
                word: "closure",
                names: &[subject],
            };
            let listed = store.evaluate().closure(&subject);
            list::certificates(rt, store, heading, &BOTH, listed, plain)
        }
        Question::RevocationsOf { certificate } => {
            let heading = Heading {
                word: "revocations",
                names: &[certificate],
            };
            let listed = store.revocations_of(&certificate);
            list::certificates(rt, store, heading, &[Kind::Revocation], listed, plain)
        }
        Question::DelegationsTo { subject, audience } => {
            let heading = Heading {
                word: "delegations",
                names: &[subject, audience],
            };
            let listed = store.delegations_to(&subject, &audience);
            list::certificates(rt, store, heading, &[Kind::Delegation], listed, plain)
        }
        Question::Certificates => {
            let heading = Heading {
                word: "certificates",
                names: &[],
            };
            let listed = store.certificates();
            list::certificates(rt, store, heading, &BOTH, listed, plain)
        }
        Question::Subjects => list::subjects(rt, store.subjects(), plain),
        Question::Graph { subject } => graph::graph(rt, store, &subject),
    }
}
