// The line K, and the T lines behind it: a key that is asked about, held or not, with its rows, its members and its closure.
ghost use Rattle.queries.specs.Evaluated.{GoodEvaluated};

use crate::block::{ALL, Block, EVERY_DELEGATION, EVERY_KEY, Fault, To, malformed};
use crate::fields::{Fields, Run};
use crate::frame::{Line, MOST_KEYS};
use crate::marks;
use crate::tally::Tally;

// K key subject positive effective marks marks
#[derive(Clone, Copy)]
struct Asked<'a> {
    key: Run,
    is_subject: bool,
    // the power over this key of each key asked about
    positive: &'a [u8],
    effective: &'a [u8],
    // of the closure
    delegations: &'a [u8],
    revocations: &'a [u8],
}

impl<'a> Asked<'a> {
    fn read(line: &'a Line, block: &Block<'_>) -> Option<Self> {
        let mut fields = Fields::of(line.text());
        let asked = Asked {
            key: fields.run()?,
            is_subject: fields.flag()?,
            positive: fields.row(block.keys.len())?,
            effective: fields.row(block.keys.len())?,
            delegations: fields.marks(block.delegations.len())?,
            revocations: fields.marks(block.revocations.len())?,
        };
        fields.end()?;
        Some(asked)
    }
}

impl Block<'_> {
    // A K line, and the T lines behind it.
    pub(crate) fn asked<R: Print>(&self, lines: &[Line], tally: &mut Tally<R>) -> Result<(), Fault>
        requires { GoodEvaluated self.now.evaluation.now.evaluated }
    {
        let Some((line, to)) = lines.split_first() else {
            return Ok(());
        };
        let at = line.number;
        let Some(asked) = Asked::read(line, self) else {
            return malformed(tally, at);
        };
        let key = &asked.key;
        for (j, (other, letter)) in self.keys.iter().zip(asked.positive).enumerate() {
            let same = self.evaluation.positive_power(key, other) == Some(*letter);
            tally.compare_pair(same, at, "positive_power", j);
        }
        for (j, (other, letter)) in self.keys.iter().zip(asked.effective).enumerate() {
            let same = self.evaluation.effective_power(key, other) == Some(*letter);
            tally.compare_pair(same, at, "effective_power", j);
        }
        tally.compare(self.has_members(&asked), at, "members");
        tally.compare(self.closes(&asked), at, "closure");
        for (j, other) in self.keys.iter().enumerate() {
            let named = to.iter().find(|line| names(line, j));
            let same = self.delegates(key, other, named);
            tally.compare_pair(
                same,
                named.map_or(at, |line| line.number),
                "delegations_to",
                j,
            );
        }
        tally.compare(self.is_subject(key) == asked.is_subject, at, "subjects");
        Ok(())
    }

    // Whether the members are the effective row without the key itself.
    fn has_members(&self, asked: &Asked<'_>) -> bool
        requires { GoodEvaluated self.now.evaluation.now.evaluated }
    {
        let mut out = [0u8; EVERY_KEY];
        let mut powers = [0u8; MOST_KEYS];
        let Some((members, powers)) = self.evaluation.members(&asked.key, &mut out, &mut powers)
        else {
            return false;
        };
        self.keys
            .iter()
            .zip(asked.effective)
            .filter(|(key, letter)| **key != asked.key && **letter != b'.')
            .eq(members.iter().zip(powers))
    }

    // Whether the closure is the marked delegations, then the marked revocations.
    fn closes(&self, asked: &Asked<'_>) -> bool
        requires { GoodEvaluated self.now.evaluation.now.evaluated }
    {
        let mut out = [0u8; ALL];
        let Some((delegations, revocations)) = self.evaluation.closure(&asked.key, &mut out) else {
            return false;
        };
        marks::marked(asked.delegations, self.delegations, delegations)
            && marks::marked(asked.revocations, self.revocations, revocations)
    }

    fn is_subject(&self, key: &Run) -> bool {
        let mut out = [0u8; EVERY_KEY];
        self.store
            .subjects(&mut out)
            .is_some_and(|subjects| subjects.contains(key))
    }

    // Whether `delegations_to` is what the T line says, or nothing where there is none.
    fn delegates(&self, subject: &Run, audience: &Run, named: Option<&Line>) -> bool {
        let mut out = [0u8; EVERY_DELEGATION];
        let to = named.and_then(|line| To::read(line, self.delegations.len()));
        let marks = to.map_or([].as_slice(), |to| to.marks);
        self.store
            .delegations_to(subject, audience, &mut out)
            .is_some_and(|list| marks::marked(marks, self.delegations, list))
    }
}

// Whether the T line is about the key in the K line of this number.
fn names(line: &Line, j: usize) -> bool {
    Fields::of(line.text()).number() == Some(j)
}
