// The line p: a payload and what the reader says of it.
use crate::fields::{Fields, Run};
use crate::tally::Tally;
use crate::{fields, kernel};

// The longest payload that is taken.
const ROOM: usize = 2048;

// What the fields behind the payload say of it.
#[derive(Clone, Copy)]
enum Said<'a> {
    // a refusal's number, and the value beside it
    Refused(usize, usize),
    // a power's letter, and the citation
    Accepted(&'a [u8], Option<Run>),
}

pub(crate) fn line<R: Print>(tally: &mut Tally<R>, line: &[u8]) {
    let at = tally.line();
    let mut room = [0u8; ROOM];
    let mut fields = Fields::of(line);
    let payload = fields.text().and_then(|text| payload(text, &mut room));
    let (Some(payload), Some(said)) = (payload, Said::read(fields)) else {
        tally.malformed(at);
        return;
    };
    tally.payload();
    tally.compare(said.decodes(payload), at, "payload");
    tally.compare(said.cites(payload), at, "citation");
}

// The empty payload is written as a dash.
fn payload<'a>(text: &[u8], room: &'a mut [u8]) -> Option<&'a [u8]> {
    match text {
        b"-" => room.get(..0),
        b"" => None,
        _ => fields::bytes(text, room),
    }
}

// A citation that is absent is written as a dash.
fn citation(text: &[u8]) -> Option<Option<Run>> {
    if text == b"-".as_slice() {
        return Some(None);
    }
    fields::run(text).map(Some)
}

impl<'a> Said<'a> {
    // no value, or 0 power citation
    fn read(fields: Fields<'a>) -> Option<Self> {
        let mut refused = fields;
        let mut accepted = fields;
        if accepted.text()? == b"0".as_slice() {
            let said = Said::Accepted(accepted.text()?, citation(accepted.text()?)?);
            accepted.end()?;
            return Some(said);
        }
        let said = Said::Refused(refused.number()?, refused.number()?);
        refused.end()?;
        Some(said)
    }

    fn decodes(&self, payload: &[u8]) -> bool {
        match (kernel::decode(payload), *self) {
            (Err(why), Said::Refused(number, beside)) => {
                usize::from(why.number()) == number && why.beside() == beside
            }
            (Ok((power, cited)), Said::Accepted(letter, citation)) => {
                letter == [power.byte()].as_slice() && citation.is_some() == cited
            }
            _ => false,
        }
    }

    // The citation is handed back as a part of the payload; it is empty where the line has none.
    fn cites(&self, payload: &[u8]) -> bool {
        let found = codec::delegation::citation(payload);
        match self {
            Said::Accepted(_, Some(wanted)) => found == wanted.as_slice(),
            _ => found.is_empty(),
        }
    }
}
