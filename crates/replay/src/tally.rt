// What was counted so far, and what is said about it. Only the first difference is written out; every one is counted. A write that fails is passed
// over: the exit status speaks of what is read.
use std::fmt;

#[derive(Clone, Copy, Default)]
struct Counts {
    stores: u64,
    blocks: u64,
    payloads: u64,
    answers: u64,
    differ: u64,
    malformed: u64,
}

impl fmt::Display for Counts {
    fn fmt<W: fmt::Write>(&self, f: &mut fmt::Formatter<W>) -> fmt::Result {
        let Counts {
            stores,
            blocks,
            payloads,
            answers,
            differ,
            malformed,
        } = *self;
        write!(
            f,
            "replay: {stores} stores, {blocks} blocks, {payloads} payloads, "
        )?;
        write!(
            f,
            "{answers} answers compared, {differ} differ, {malformed} malformed"
        )
    }
}

#[derive(Drop)]
pub(crate) struct Tally<R: Print> {
    rt: R,
    // of the line that is read, counted from 1
    line: u64,
    counts: Counts,
}

impl<R: Print> Tally<R> {
    pub(crate) fn new(rt: R) -> Self {
        let counts = Counts::default();
        Tally {
            rt,
            line: 0,
            counts,
        }
    }

    pub(crate) fn line(&self) -> u64 {
        self.line
    }

    pub(crate) fn next_line(&mut self) {
        self.line = self.line.wrapping_add(1);
    }

    pub(crate) fn store(&mut self) {
        self.counts.stores = self.counts.stores.wrapping_add(1);
    }

    pub(crate) fn block(&mut self) {
        self.counts.blocks = self.counts.blocks.wrapping_add(1);
    }

    pub(crate) fn payload(&mut self) {
        self.counts.payloads = self.counts.payloads.wrapping_add(1);
    }

    // An answer about a line, and whether the kernel gives it.
    pub(crate) fn compare(&mut self, same: bool, line: u64, what: &str) {
        if self.is_first_difference(same) {
            let _ = println!(self.rt; "line {line}: differs: {what}");
        }
    }

    // An answer about two keys: that of the line, and the one in the K line of this number.
    pub(crate) fn compare_pair(&mut self, same: bool, line: u64, what: &str, k: usize) {
        if self.is_first_difference(same) {
            let _ = println!(self.rt; "line {line}: differs: {what} of the key in K line {k}");
        }
    }

    fn is_first_difference(&mut self, same: bool) -> bool {
        self.counts.answers = self.counts.answers.wrapping_add(1);
        if same {
            return false;
        }
        self.counts.differ = self.counts.differ.wrapping_add(1);
        self.counts.differ == 1
    }

    pub(crate) fn malformed(&mut self, line: u64) {
        let _ = println!(self.rt; "line {line}: malformed");
        self.counts.malformed = self.counts.malformed.wrapping_add(1);
    }

    // A block that is larger than what is kept of one.
    pub(crate) fn too_large(&mut self, line: u64) {
        let _ = println!(self.rt; "line {line}: too large a block");
        self.counts.malformed = self.counts.malformed.wrapping_add(1);
    }

    pub(crate) fn report(&self) {
        let counts = self.counts;
        let _ = println!(self.rt; "{counts}");
    }
}
