// The text goes by a block at a time: a line is gathered, and at its end the store takes a certificate or a question is answered. So text
// of any length is read in two buffers, and a line that is typed is answered at once.
use crate::kernel::Store;
use crate::{question, say};
use keyline::refusal::Refusal;
use notation::expected::Expected;
use notation::statement::{Question, Statement};
use std::io::{self, Read};
use std::mem;
use tables::answer::Outcome;
use text::line::Line;
use text::{line, words};

const BLOCK_LENGTH: usize = 4096;

// Where counting stops: no text has so many lines.
const LAST_NUMBER: u64 = 1_000_000_000;

#[derive(Drop)]
struct Reader {
    store: Store,
    line: Line,
    // The number of the last line that has ended.
    number: u64,
    // How many lines were wrong.
    wrong: u64,
    plain: bool,
}

// A proved loop has to end, and nothing says that a file does. So the loop has more turns than any run uses up.
// The exit status says nothing of wrong lines: a line on standard error says that there were any.
pub(crate) fn run<R: Print + Eprint, I: Read + Drop>(
    rt: &R,
    mut input: I,
    plain: bool,
) -> io::Result<()> {
    let mut reader = Reader {
        store: Store::new(),
        line: Line::new(),
        number: 0,
        wrong: 0,
        plain,
    };
    let mut block = [0u8; BLOCK_LENGTH];
    for _ in 0..u64::MAX {
        match input.read(&mut block) {
            Ok(0) => break,
            Ok(n) => reader.take(rt, &block[..n])?,
            Err(e) => {
                // Where that can't be said either, there is nobody to hear it.
                let _ = eprintln!(rt; "reading: {e}");
                break;
            }
        }
    }
    // The last line may have no end.
    reader.end_line(rt)?;
    if reader.wrong > 0 {
        let _ = eprintln!(rt; "wrong lines: {}", reader.wrong);
    }
    Ok(())
}

impl Reader {
    // Some more of the text: what goes on with the line, and the lines that end in it.
    fn take(&mut self, rt: &impl Print, text: &[u8]) -> io::Result<()> {
        let mut rest = text;
        while let Some((end, next)) = line::split_at_end(rest) {
            self.line.append(end);
            self.end_line(rt)?;
            rest = next;
        }
        self.line.append(rest);
        Ok(())
    }

    fn end_line(&mut self, rt: &impl Print) -> io::Result<()> {
        let line = mem::replace(&mut self.line, Line::new());
        self.number = next(self.number);
        match read(&line) {
            Ok(None) => Ok(()),
            Ok(Some(Statement::Delegation(new))) => {
                let answer = self.store.insert_delegation(&new);
                self.told(rt, answer)
            }
            Ok(Some(Statement::Revocation(new))) => {
                let answer = self.store.insert_revocation(&new);
                self.told(rt, answer)
            }
            Ok(Some(Statement::Question(question))) => self.asked(rt, &line, question),
            Err(expected) => {
                self.wrong = next(self.wrong);
                println!(rt; "line {}: expected {expected}", self.number)
            }
        }
    }

    // Nothing is said of a certificate that was added.
    fn told(&self, rt: &impl Print, answer: Result<Outcome, Refusal>) -> io::Result<()> {
        let number = self.number;
        match answer {
            Ok(Outcome::Added) => Ok(()),
            Ok(Outcome::NotAdded) => {
                println!(rt; "line {number}: not added: it is held already")
            }
            Err(why) => println!(rt; "line {number}: {}", say::Refused(why)),
        }
    }

    // People see the question before its answer; before a graph it is a comment, so that what follows is Graphviz text as a whole.
    fn asked(&self, rt: &impl Print, line: &Line, question: Question) -> io::Result<()> {
        if !self.plain
            && let Ok(line) = line.bytes()
        {
            if let Question::Graph { .. } = question {
                print!(rt; "// ")?;
            }
            rt.write_all(words::whole(line))?;
            rt.println("")?;
        }
        question::answer(rt, &self.store, question, self.plain)
    }
}

fn read(line: &Line) -> Result<Option<Statement>, Expected> {
    match line.bytes() {
        Ok(bytes) => notation::reading::read(bytes),
        Err(too_long) => Err(Expected::from(too_long)),
    }
}

fn next(number: u64) -> u64 {
    number.saturating_add(1).min(LAST_NUMBER)
}
