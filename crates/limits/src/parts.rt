// Lookups by identity: both buffers one byte short, exact and longer; "the first one's fit is tested first"; an absent one touches neither.
// A line has the issuer, whether the other part is the one given, and the bytes touched in each buffer.

use crate::argument::Argument;
use crate::certificate::{Certificate, reading, revocation};
use crate::room::{BEFORE, Items, touched};
use crate::small;
use keyline::limits::DIGEST_LENGTH;
use keyline_memory::state::State;
use std::io;

// More than the longest payload.
const SPACE: usize = 100;

// Looks for the certificate's digest, at the length given, with a room for the issuer and one for the payload or the digest that is revoked.
pub(crate) fn look(
    rt: &impl Print,
    s: &State,
    certificate: &Certificate,
    length: usize,
    rooms: (usize, usize),
) -> io::Result<()> {
    let (room, other_room) = rooms;
    let mut issuer = [BEFORE; SPACE];
    let mut other = [BEFORE; SPACE];
    let answer = certificate.look(
        s,
        length,
        &mut issuer[..room.min(SPACE)],
        &mut other[..other_room.min(SPACE)],
    );
    let kind = certificate.content.kind();
    let digest = Argument::of(certificate.digest, length);
    print!(rt; "  {kind} {digest}, rooms {room} and {other_room}: {answer}")?;
    if touched(&issuer) != 0 {
        let by = Items {
            space: &issuer,
            count: 1,
        };
        let wanted = certificate.content.argument();
        let same = other.starts_with(wanted.as_slice());
        print!(rt; ", issuer{by}, as given {}", u8::from(same))?;
    }
    println!(rt;
        ", touched {}, touched {}",
        touched(&issuer),
        touched(&other)
    )
}

pub(crate) fn cases(rt: &impl Print) -> io::Result<()> {
    println!(rt; "lookups in the small set")?;
    let s = small::set();
    let certificates = [
        (small::edit(), (32, 66)),
        (small::edit(), (31, 66)),
        (small::edit(), (32, 65)),
        (small::edit(), (31, 65)),
        (small::edit(), (33, 67)),
        (small::cited(), (32, 98)),
        (small::cited(), (31, 98)),
        (small::cited(), (32, 97)),
        (small::cited(), (33, 99)),
        (small::cited(), (0, 0)),
        (revocation(20, 8, 11), (32, 32)),
        (revocation(20, 8, 11), (31, 32)),
        (revocation(20, 8, 11), (32, 31)),
        (revocation(20, 8, 11), (31, 31)),
        (revocation(22, 9, 99), (33, 33)),
        // No delegation has the digest 20, and no revocation the digest 10.
        (reading(20, 8, 0, 0), (0, 0)),
        (reading(20, 8, 0, 0), (33, 99)),
        (revocation(10, 1, 11), (0, 0)),
        (revocation(10, 1, 11), (33, 33)),
    ];
    for (certificate, rooms) in certificates {
        look(rt, &s, &certificate, DIGEST_LENGTH, rooms)?;
    }
    Ok(())
}
