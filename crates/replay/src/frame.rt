// The lines of a block as they are kept until its end, because a row speaks of keys in later lines, and where its parts lie among them.
use crate::fields::Fields;
use arrayvec::ArrayVec;

// Of a line: the longest is a K line with two rows of 160 letters.
const LONGEST: usize = 599;

// 128 D, 64 R, 160 N, 160 K and 128 T lines.
const MOST_LINES: usize = 640;

pub(crate) const MOST_KEYS: usize = 160;

pub(crate) const MOST_DELEGATIONS: usize = 128;

pub(crate) const MOST_REVOCATIONS: usize = 64;

#[derive(Default, Drop)]
pub(crate) struct Line {
    pub number: u64,
    text: ArrayVec<u8, LONGEST>,
}

impl Line {
    // Nothing where the line is too long.
    fn new(number: u64, line: &[u8]) -> Option<Self> {
        let mut text = ArrayVec::new();
        text.try_extend_from_slice(line).ok()?;
        Some(Line { number, text })
    }

    pub(crate) fn text(&self) -> &[u8] {
        self.text.as_slice()
    }

    pub(crate) fn is(&self, kind: u8) -> bool {
        self.text().first() == Some(&kind)
    }
}

// The line `a`, and those behind it. One value serves every block.
#[derive(Drop)]
pub(crate) struct Kept {
    head: Line,
    lines: ArrayVec<Line, MOST_LINES>,
}

impl Kept {
    pub(crate) fn new() -> Self {
        Kept {
            head: Line::default(),
            lines: ArrayVec::new(),
        }
    }

    // Begins a block with its line `a`, where that is not too long.
    pub(crate) fn open(&mut self, number: u64, line: &[u8]) -> bool {
        let Some(head) = Line::new(number, line) else {
            return false;
        };
        self.head = head;
        self.lines.clear();
        true
    }

    // Whether there was room for the line.
    pub(crate) fn keep(&mut self, number: u64, line: &[u8]) -> bool {
        match Line::new(number, line) {
            Some(line) => self.lines.try_push(line).is_ok(),
            None => false,
        }
    }

    pub(crate) fn head(&self) -> &Line {
        &self.head
    }

    pub(crate) fn lines(&self) -> &[Line] {
        self.lines.as_slice()
    }
}

// a version len nd nr
#[derive(Clone, Copy)]
pub(crate) struct Head {
    pub version: usize,
    pub len: usize,
    pub delegations: usize,
    pub revocations: usize,
}

impl Head {
    pub(crate) fn read(line: &Line) -> Option<Self> {
        let mut fields = Fields::of(line.text());
        let head = Head {
            version: fields.number()?,
            len: fields.number()?,
            delegations: fields.number()?,
            revocations: fields.number()?,
        };
        fields.end()?;
        Some(head)
    }
}

// The lines behind the line `a`, by their kinds.
#[derive(Clone, Copy)]
pub(crate) struct Frame<'a> {
    pub delegations: &'a [Line],
    pub revocations: &'a [Line],
    pub unheld: &'a [Line],
    // a K line and the T lines behind it, for each key that is asked about
    pub asked: &'a [Line],
}

// The lines up to the first that is not of the kind, and the others.
fn run_of(lines: &[Line], kind: u8) -> (&[Line], &[Line]) {
    let n = lines
        .iter()
        .position(|line| !line.is(kind))
        .unwrap_or(lines.len());
    lines.split_at(n)
}

impl<'a> Frame<'a> {
    pub(crate) fn of(lines: &'a [Line]) -> Self {
        let (delegations, lines) = run_of(lines, b'D');
        let (revocations, lines) = run_of(lines, b'R');
        let (unheld, asked) = run_of(lines, b'N');
        Frame {
            delegations,
            revocations,
            unheld,
            asked,
        }
    }

    pub(crate) fn key_count(&self) -> usize {
        self.asked.iter().filter(|line| line.is(b'K')).count()
    }
}
