// Cases of the writer.
use crate::refused::Refused;
use crate::sample::{LENGTH, Sample};
use keyline::limits::{KEY_LENGTH, PAYLOAD_LENGTH};
use keyline::refusal::Refusal;
use std::io;

// What the buffer is filled with before the call; no byte of a sample payload has this value.
const BEFORE: u8 = 255;

// How many bytes the audience and the subject have, the power byte, how many bytes the citation has, and the room in the buffer.
const CASES: [(usize, usize, u8, usize, usize); 23] = [
    // The buffer one byte short, exact and longer, without a citation and with one.
    (32, 32, b'E', 0, 0),
    (32, 32, b'E', 0, 65),
    (32, 32, b'E', 0, 66),
    (32, 32, b'E', 0, 97),
    (32, 32, b'E', 32, 66),
    (32, 32, b'E', 32, 97),
    (32, 32, b'E', 32, 98),
    (32, 32, b'E', 32, 99),
    // Each argument at 0, 31 and 33 bytes; an empty citation is an absent one.
    (0, 32, b'A', 0, 99),
    (31, 32, b'A', 0, 99),
    (33, 32, b'A', 0, 99),
    (32, 0, b'A', 0, 99),
    (32, 31, b'A', 0, 99),
    (32, 33, b'A', 0, 99),
    (32, 32, b'A', 0, 99),
    (32, 32, b'A', 31, 99),
    (32, 32, b'A', 33, 99),
    // "Its checks: lengths (1) in that order, power byte (4), then 9."
    (31, 33, 88, 1, 0),
    (32, 33, 88, 1, 0),
    (32, 32, 88, 1, 0),
    (32, 32, 88, 32, 0),
    (32, 32, b'L', 32, 0),
    (32, 32, b'L', 32, 98),
];

pub(crate) fn cases(rt: &impl Print) -> io::Result<()> {
    for (audience, subject, power, citation, room) in CASES {
        print!(rt;
            "write {audience} {subject}, power {power}, citation {citation}, room {room}: "
        )?;
        let sample = Sample::new(power, u8::from(citation != 0));
        let mut space = [BEFORE; LENGTH];
        let answer = codec::delegation::encode(
            sample.part(0, audience),
            sample.part(KEY_LENGTH, subject),
            power,
            sample.part(PAYLOAD_LENGTH, citation),
            &mut space[..room.min(LENGTH)],
        );
        written(rt, answer, &sample, &space)?;
    }
    Ok(())
}

// The answer, whether the bytes at the front are the sample's, and how many bytes were left as they were.
fn written(
    rt: &impl Print,
    answer: Result<usize, Refusal>,
    sample: &Sample,
    space: &[u8],
) -> io::Result<()> {
    match answer {
        Ok(n) => {
            let same = space.starts_with(sample.part(0, n));
            print!(rt; "wrote {n}, as the sample {}", u8::from(same))?;
        }
        Err(why) => print!(rt; "{}", Refused(why))?,
    }
    let left = space.iter().filter(|byte| **byte == BEFORE).count();
    println!(rt; ", left {left}")
}
