// The fields of a line, parted by one space: bytes in lower-case hex, decimal numbers, flags, letters and marks. Nothing is found where a field is
// missing or of another form.
use crate::marks;
use hex::FromHex;
use keyline::limits::{CITED_LENGTH, KEY_LENGTH, PAYLOAD_LENGTH};

// A key, or a digest, which is as long.
pub(crate) type Run = [u8; KEY_LENGTH];

// What no number of a line reaches: it is larger than any count that is taken.
const NUMBER_LIMIT: usize = 1_000_000;

// Those of a line that are not read yet.
#[derive(Clone, Copy)]
pub(crate) struct Fields<'a> {
    rest: Option<&'a [u8]>,
}

impl<'a> Fields<'a> {
    // Behind the first, which is the line's kind.
    pub(crate) fn of(line: &'a [u8]) -> Self {
        let mut fields = Fields { rest: Some(line) };
        fields.text();
        fields
    }

    pub(crate) fn text(&mut self) -> Option<&'a [u8]> {
        let mut parts = self.rest?.splitn(2, |b| *b == b' ');
        let text = parts.next();
        self.rest = parts.next();
        text
    }

    pub(crate) fn run(&mut self) -> Option<Run> {
        run(self.text()?)
    }

    // In hex, and as long as a payload that the reader takes.
    pub(crate) fn payload(&mut self) -> Option<&'a [u8]> {
        self.text().filter(|text| is_payload(text))
    }

    pub(crate) fn number(&mut self) -> Option<usize> {
        number(self.text()?)
    }

    pub(crate) fn flag(&mut self) -> Option<bool> {
        match self.text()? {
            b"0" => Some(false),
            b"1" => Some(true),
            _ => None,
        }
    }

    // The letter of a power, or the dot of none; a zero byte alone is a letter that no answer has.
    pub(crate) fn letter(&mut self) -> Option<u8> {
        match self.text()? {
            [b] if is_letter(*b) || *b == 0 => Some(*b),
            _ => None,
        }
    }

    // A letter for each of n keys.
    pub(crate) fn row(&mut self, n: usize) -> Option<&'a [u8]> {
        self.text().filter(|text| text.len() == n && text.iter().all(|b| is_letter(*b)))
    }

    // A mark for each of n digests.
    pub(crate) fn marks(&mut self, n: usize) -> Option<&'a [u8]> {
        self.text().filter(|text| marks::are_marks(text, n))
    }

    // That none is left.
    pub(crate) fn end(&self) -> Option<()> {
        self.rest.is_none().then_some(())
    }
}

fn is_hex(text: &[u8]) -> bool {
    text.iter().all(|b| matches!(b, b'0'..=b'9' | b'a'..=b'f'))
}

pub(crate) fn run(text: &[u8]) -> Option<Run> {
    if !is_hex(text) {
        return None;
    }
    <Run as FromHex>::from_hex(text).ok()
}

// The bytes of a field in hex, where the room has place for them: they lie at its front.
pub(crate) fn bytes<'a>(text: &[u8], room: &'a mut [u8]) -> Option<&'a [u8]> {
    if !is_hex(text) {
        return None;
    }
    let bytes = room.get_mut(..text.len() / 2)?;
    hex::decode_to_slice(text, bytes).ok()?;
    Some(bytes)
}

fn is_payload(text: &[u8]) -> bool {
    let n = text.len();
    (n == 2 * PAYLOAD_LENGTH || n == 2 * CITED_LENGTH) && is_hex(text)
}

fn number(text: &[u8]) -> Option<usize> {
    if !text.iter().all(|b| b.is_ascii_digit()) {
        return None;
    }
    let number = std::str::from_utf8(text).ok()?.parse::<usize>().ok()?;
    (number < NUMBER_LIMIT).then_some(number)
}

fn is_letter(b: u8) -> bool {
    matches!(b, b'.' | b'L' | b'R' | b'E' | b'A')
}
