// Cases of the reader.
use crate::refused::Refused;
use crate::sample::Sample;
use std::io;

// The sample's power byte and tag, and how many of its first bytes are read.
const CASES: [(u8, u8, usize); 23] = [
    // "payloads of 65, 66, 67 bytes with tag 0 and 97, 98, 99 with tag 1", and the lengths of the other tag
    (b'R', 0, 65),
    (b'R', 0, 66),
    (b'R', 0, 67),
    (b'R', 1, 97),
    (b'R', 1, 98),
    (b'R', 1, 99),
    (b'R', 0, 0),
    (b'R', 0, 98),
    (b'R', 1, 66),
    // "power byte 88 with tag 9 gives InvalidTag 88": length first, then the power byte, then the tag
    (88, 9, 65),
    (88, 9, 66),
    (88, 0, 67),
    (88, 1, 97),
    (b'R', 9, 66),
    (b'R', 9, 99),
    (b'R', 255, 98),
    // "Relay L rank 0, Read R 1, Edit E 2, Admin A 3"
    (b'L', 0, 66),
    (b'R', 0, 66),
    (b'E', 0, 66),
    (b'A', 1, 98),
    (b'l', 0, 66),
    (b'C', 0, 66),
    (0, 0, 66),
];

pub(crate) fn cases(rt: &impl Print) -> io::Result<()> {
    for (power, tag, length) in CASES {
        print!(rt; "read {length} bytes, power {power}, tag {tag}: ")?;
        let sample = Sample::new(power, tag);
        let payload = sample.part(0, length);
        found(rt, payload)?;
        citation(rt, payload)?;
    }
    Ok(())
}

fn found(rt: &impl Print, payload: &[u8]) -> io::Result<()> {
    match codec::delegation::decode(payload) {
        Ok(found) => {
            let byte = found.power.byte();
            let rank = found.power.rank();
            let cited = u8::from(!found.citation.is_empty());
            print!(rt; "accepted {byte} of rank {rank}, cited {cited}")
        }
        Err(why) => print!(rt; "{}", Refused(why)),
    }
}

// The part that is handed back: its length, and its first and last byte, which name their places in the payload.
fn citation(rt: &impl Print, payload: &[u8]) -> io::Result<()> {
    match codec::delegation::citation(payload) {
        [] => println!(rt; ", citation of 0"),
        cited @ [first, .., last] => {
            println!(rt; ", citation of {}, bytes {first} to {last}", cited.len())
        }
        [only] => println!(rt; ", citation of 1, bytes {only} to {only}"),
    }
}
