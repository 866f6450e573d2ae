// A block, at its end: its line `a`, its shape, and then each of its lines.
ghost use Rattle.queries.specs.Evaluated.{GoodEvaluated};

use crate::fields::{Fields, Run};
use crate::frame::{Frame, Head, Kept, Line, MOST_DELEGATIONS, MOST_KEYS, MOST_REVOCATIONS};
use crate::kernel::{Evaluation, Store};
use crate::tally::Tally;
use arrayvec::ArrayVec;
use keyline::limits::{DIGEST_LENGTH, KEY_LENGTH};

pub(crate) const EVERY_DELEGATION: usize = DIGEST_LENGTH * MOST_DELEGATIONS;

pub(crate) const EVERY_REVOCATION: usize = DIGEST_LENGTH * MOST_REVOCATIONS;

pub(crate) const ALL: usize = EVERY_DELEGATION + EVERY_REVOCATION;

pub(crate) const EVERY_KEY: usize = KEY_LENGTH * MOST_KEYS;

// One of a block's lines, which the tally has named, so that the block is not gone on with.
#[derive(Clone, Copy)]
pub(crate) struct Fault;

// What the lines of a block are held against.
#[derive(Clone, Copy)]
pub(crate) struct Block<'a> {
    pub store: &'a Store,
    pub evaluation: &'a Evaluation,
    pub frame: &'a Frame<'a>,
    // what the store lists
    pub delegations: &'a [Run],
    pub revocations: &'a [Run],
    // those asked about, in the order of their lines
    pub keys: &'a [Run],
}

pub(crate) fn check<R: Print>(
    store: &Store,
    kept: &Kept,
    tally: &mut Tally<R>,
) -> Result<(), Fault> {
    tally.block();
    let at = kept.head().number;
    let Some(head) = Head::read(kept.head()) else {
        return malformed(tally, at);
    };
    let frame = Frame::of(kept.lines());
    if is_large(&head, &frame) {
        tally.too_large(at);
        return Err(Fault);
    }
    if let Some(wrong) = misplaced(&head, &frame, tally.line()) {
        return malformed(tally, wrong);
    }
    let mut keys = ArrayVec::<Run, MOST_KEYS>::new();
    for line in frame.asked.iter().filter(|line| line.is(b'K')) {
        match Fields::of(line.text()).run() {
            Some(key) if keys.as_slice().last().is_none_or(|last| *last < key) => {
                // There are no more than have room.
                let _ = keys.try_push(key);
            }
            _ => return malformed(tally, line.number),
        }
    }
    answers(store, at, &head, &frame, keys.as_slice(), tally)
}

pub(crate) fn malformed<R: Print>(tally: &mut Tally<R>, line: u64) -> Result<(), Fault> {
    tally.malformed(line);
    Err(Fault)
}

fn is_large(head: &Head, frame: &Frame<'_>) -> bool {
    head.delegations > MOST_DELEGATIONS
        || head.revocations > MOST_REVOCATIONS
        || frame.key_count() > MOST_KEYS
}

// The number of the first line that is not of the kind that its place asks for, that of the block's end where lines are missing, or nothing.
fn misplaced(head: &Head, frame: &Frame<'_>, end: u64) -> Option<u64> {
    let unheld = frame.unheld.first().or(frame.asked.first());
    if frame.delegations.len() != head.delegations {
        return Some(
            frame
                .revocations
                .first()
                .or(unheld)
                .map_or(end, |line| line.number),
        );
    }
    if frame.revocations.len() != head.revocations {
        return Some(unheld.map_or(end, |line| line.number));
    }
    if let Some(line) = frame.asked.first().filter(|line| !line.is(b'K')) {
        return Some(line.number);
    }
    if let Some(line) = frame
        .asked
        .iter()
        .find(|line| !line.is(b'K') && !line.is(b'T'))
    {
        return Some(line.number);
    }
    unnamed(head, frame)
}

// The number of the first T line that names no key asked about, does not ascend, or has no marks; or nothing.
fn unnamed(head: &Head, frame: &Frame<'_>) -> Option<u64> {
    let keys = frame.key_count();
    frame
        .asked
        .iter()
        .zip(frame.asked.iter().skip(1))
        .find(|(before, line)| line.is(b'T') && !is_named(before, line, keys, head.delegations))
        .map(|(_, line)| line.number)
}

// Whether a T line names a key, behind the one that a T line before it names.
fn is_named(before: &Line, line: &Line, keys: usize, delegations: usize) -> bool {
    match To::read(line, delegations) {
        Some(to) if to.key < keys => {
            !before.is(b'T')
                || Fields::of(before.text())
                    .number()
                    .is_some_and(|key| key < to.key)
        }
        _ => false,
    }
}

// T j marks
#[derive(Clone, Copy)]
pub(crate) struct To<'a> {
    pub key: usize,
    pub marks: &'a [u8],
}

impl<'a> To<'a> {
    pub(crate) fn read(line: &'a Line, delegations: usize) -> Option<Self> {
        let mut fields = Fields::of(line.text());
        let to = To {
            key: fields.number()?,
            marks: fields.marks(delegations)?,
        };
        fields.end()?;
        Some(to)
    }
}

fn answers<R: Print>(
    store: &Store,
    at: u64,
    head: &Head,
    frame: &Frame<'_>,
    keys: &[Run],
    tally: &mut Tally<R>,
) -> Result<(), Fault> {
    let mut all = [0u8; ALL];
    // As many certificates of each kind; what they are, each line says.
    let listed = store.certificates(&mut all).filter(|(ds, rs)| ds.len() == head.delegations
        && rs.len() == head.revocations);
    tally.compare(store.version() == head.version as u64, at, "version");
    tally.compare(store.len() == head.len, at, "len");
    tally.compare(store.is_empty() == (head.len == 0), at, "is_empty");
    tally.compare(listed.is_some(), at, "certificates");
    let Some((delegations, revocations)) = listed else {
        return Ok(());
    };
    let evaluation = store.evaluate();
    let block = Block {
        store,
        evaluation: &evaluation,
        frame,
        delegations,
        revocations,
        keys,
    };
    let read = block.lines(tally);
    // Asked behind a malformed line too.
    tally.compare(block.has_subjects(), at, "subjects");
    read
}

impl Block<'_> {
    fn lines<R: Print>(&self, tally: &mut Tally<R>) -> Result<(), Fault>
        requires { GoodEvaluated self.now.evaluation.now.evaluated }
    {
        for (line, listed) in self.frame.delegations.iter().zip(self.delegations) {
            self.delegation(line, listed, tally)?;
        }
        for (line, listed) in self.frame.revocations.iter().zip(self.revocations) {
            self.revocation(line, listed, tally)?;
        }
        for line in self.frame.unheld {
            self.unheld(line, tally)?;
        }
        for asked in self.frame.asked.chunk_by(|_, line| line.is(b'T')) {
            self.asked(asked, tally)?;
        }
        Ok(())
    }

    // Whether the kernel lists as many subjects as there are K lines that say so.
    fn has_subjects(&self) -> bool {
        let mut out = [0u8; EVERY_KEY];
        let flagged = self
            .frame
            .asked
            .iter()
            .filter(|line| is_flagged(line))
            .count();
        self.store
            .subjects(&mut out)
            .is_some_and(|subjects| subjects.len() == flagged)
    }
}

fn is_flagged(line: &Line) -> bool {
    let mut fields = Fields::of(line.text());
    fields.text();
    line.is(b'K') && fields.text() == Some(b"1".as_slice())
}
