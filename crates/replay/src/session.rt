// What stands between lines: the counts, the store, and where in the format the next line lies.
use crate::fields::Fields;
use crate::frame::Kept;
use crate::kernel::Store;
use crate::tally::Tally;
use crate::{block, fields, payload};
use keyline::limits::CITED_LENGTH;
use keyline::refusal::Refusal;

#[derive(Clone, Copy)]
enum Mode {
    // No store yet.
    Start,
    // Among the insertions of a store.
    Store,
    // Between a and z.
    Block,
    // Behind a malformed line, until the next store.
    Skip,
}

#[derive(Drop)]
pub(crate) struct Session<'a, R: Print> {
    tally: Tally<R>,
    store: Store,
    mode: Mode,
    // of the block, where there is one
    kept: &'a mut Kept,
}

impl<'a, R: Print> Session<'a, R> {
    pub(crate) fn new(rt: R, kept: &'a mut Kept) -> Self {
        let tally = Tally::new(rt);
        let store = Store::new();
        Session {
            tally,
            store,
            mode: Mode::Start,
            kept,
        }
    }

    // A block that the input leaves open is malformed.
    pub(crate) fn report(&mut self) {
        if let Mode::Block = self.mode {
            self.tally.next_line();
            self.malformed();
        }
        self.tally.report();
    }

    pub(crate) fn read(&mut self, line: &[u8]) {
        self.tally.next_line();
        self.mode = match self.mode {
            Mode::Block => self.inside(line),
            mode => self.outside(mode, line),
        };
    }

    // The line, and what is behind it until the next store.
    fn malformed(&mut self) -> Mode {
        let line = self.tally.line();
        self.tally.malformed(line);
        Mode::Skip
    }

    // A line between a and z. The next store ends a block that was left open, which is malformed.
    fn inside(&mut self, line: &[u8]) -> Mode {
        if line == b"z".as_slice() {
            return self.closed();
        }
        if line.first() == Some(&b's') {
            self.malformed();
            return self.named(line);
        }
        let number = self.tally.line();
        if self.kept.keep(number, line) {
            return Mode::Block;
        }
        self.tally.too_large(number);
        Mode::Skip
    }

    fn closed(&mut self) -> Mode {
        match block::check(&self.store, self.kept, &mut self.tally) {
            Ok(()) => Mode::Store,
            Err(_) => Mode::Skip,
        }
    }

    fn outside(&mut self, mode: Mode, line: &[u8]) -> Mode {
        match (line.first(), mode) {
            (Some(b's'), _) => self.named(line),
            (Some(b'p'), mode) => {
                payload::line(&mut self.tally, line);
                mode
            }
            (_, Mode::Skip) => Mode::Skip,
            (Some(b'd'), Mode::Store) => self.delegation(line),
            (Some(b'r'), Mode::Store) => self.revocation(line),
            (Some(b'a'), Mode::Store) => self.opened(line),
            _ => self.malformed(),
        }
    }

    // s name
    fn named(&mut self, line: &[u8]) -> Mode {
        let mut fields = Fields::of(line);
        if fields.text().is_none() || fields.end().is_none() {
            return self.malformed();
        }
        self.tally.store();
        self.store = Store::new();
        Mode::Store
    }

    // a version len nd nr
    fn opened(&mut self, line: &[u8]) -> Mode {
        if self.kept.open(self.tally.line(), line) {
            Mode::Block
        } else {
            self.malformed()
        }
    }

    // d digest issuer payload added
    fn delegation(&mut self, line: &[u8]) -> Mode {
        let mut room = [0u8; CITED_LENGTH];
        match delegation(&mut self.store, line, &mut room) {
            Some(same) => self.inserted(same),
            None => self.malformed(),
        }
    }

    // r digest issuer revoked added
    fn revocation(&mut self, line: &[u8]) -> Mode {
        match revocation(&mut self.store, line) {
            Some(same) => self.inserted(same),
            None => self.malformed(),
        }
    }

    fn inserted(&mut self, same: bool) -> Mode {
        let line = self.tally.line();
        self.tally.compare(same, line, "insertion");
        Mode::Store
    }
}

// Whether the insertion of a line answers as the line says.
fn delegation(store: &mut Store, line: &[u8], room: &mut [u8]) -> Option<bool> {
    let mut fields = Fields::of(line);
    let digest = fields.run()?;
    let issuer = fields.run()?;
    let payload = fields::bytes(fields.payload()?, room)?;
    let added = fields.flag()?;
    fields.end()?;
    Some(says(added, store.insert_delegation(&digest, &issuer, payload)))
}

fn revocation(store: &mut Store, line: &[u8]) -> Option<bool> {
    let mut fields = Fields::of(line);
    let digest = fields.run()?;
    let issuer = fields.run()?;
    let revoked = fields.run()?;
    let added = fields.flag()?;
    fields.end()?;
    Some(says(added, store.insert_revocation(&digest, &issuer, &revoked)))
}

fn says(added: bool, answer: Result<bool, Refusal>) -> bool {
    answer.ok() == Some(added)
}
