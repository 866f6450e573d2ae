// The delegation payload (delegation.rs): audience 32, subject 32, power 1, tag 1, then 32 bytes of citation if the tag is 1.
// The reader looks at the caller's bytes where they lie; the writer tests everything before it writes the first byte.
ghost use Rattle.std.specs.Prelude.{◌≡◌, IfOk, IfErr};
ghost use Rattle.lent.specs.Bytes.{front};
ghost use Rattle.codec.specs.Delegation.{decoded, read_as, IsPayload, citation_of, encoded, tag_for, citation_fits, encode_checked, encode_answer, after_encode, Room};

use keyline::limits::{CITED_LENGTH, DIGEST_LENGTH, KEY_LENGTH, PAYLOAD_LENGTH, POWER_AT, TAG_AT};
use keyline::refusal::Refusal;
use power_levels::power::Power;

// The tag's two values.
const CITATION_ABSENT: u8 = 0;

const CITATION_PRESENT: u8 = 1;

// What a payload says: its power, and its other parts where they lie in the caller's bytes.
#[derive(Clone, Copy)]
pub struct Payload<'a> {
    pub audience: &'a [u8],
    pub subject: &'a [u8],
    pub power: Power,
    // Empty where there is none.
    pub citation: &'a [u8],
}

// What an accepted payload says, or why the payload is refused.
#[tactic(auto, unfolding(crate::specs::Delegation::decoded, crate::specs::Delegation::tagged))]
pub fn decode(payload: &[u8]) -> Result<Payload<'_>, Refusal>
    ensures value { read_as result ≡ decoded payload.now }
    ensures accepted { IfOk result (IsPayload payload.now) }
    ensures refused { IfErr result (λ why. decoded payload.now ≡ Err why) }
{
    if payload.len() < PAYLOAD_LENGTH {
        return Err(Refusal::UnexpectedEnd);
    }
    let byte = payload[POWER_AT];
    let power = Power::try_from(byte).map_err(|_| Refusal::InvalidTag(byte))?;
    let length = match payload[TAG_AT] {
        CITATION_ABSENT => PAYLOAD_LENGTH,
        CITATION_PRESENT => CITED_LENGTH,
        tag => return Err(Refusal::InvalidTag(tag)),
    };
    if payload.len() < length {
        return Err(Refusal::UnexpectedEnd);
    }
    if payload.len() > length {
        return Err(Refusal::TrailingBytes);
    }
    Ok(Payload {
        audience: &payload[..KEY_LENGTH],
        subject: &payload[KEY_LENGTH..POWER_AT],
        power,
        citation: &payload[PAYLOAD_LENGTH..],
    })
}

// The citation of an accepted payload, as a part of the caller's slice; empty where there is none.
#[tactic(auto, unfolding(crate::specs::Delegation::citation_of))]
pub fn citation(payload: &[u8]) -> &[u8]
    ensures { result.now ≡ citation_of payload.now }
{
    match decode(payload) {
        Ok(found) => found.citation,
        Err(_) => &payload[..0],
    }
}

// Puts the payload at the front of out, whose other bytes stay, and says how many bytes it has. A refusal leaves out as it was.
#[tactic(auto, unfolding(crate::specs::Delegation::after_encode))]
pub fn encode(
    audience: &[u8],
    subject: &[u8],
    power: u8,
    citation: &[u8],
    out: &mut [u8],
) -> Result<usize, Refusal>
    ensures value { result ≡ encode_answer audience.now subject.now power citation.now out.old }
    ensures out_after { out.new ≡ after_encode audience.now subject.now power citation.now out.old }
{
    let needed = encode_check(
        audience.len(),
        subject.len(),
        power,
        citation.len(),
        out.len(),
    )?;
    write_parts(audience, subject, power, citation, out);
    Ok(needed)
}

// The writer's checks, from the three lengths, the power byte and the room: how many bytes it will write.
#[tactic(auto, unfolding(crate::specs::Delegation::encode_checked, crate::specs::Delegation::citation_fits))]
fn encode_check(
    audience: usize,
    subject: usize,
    power: u8,
    citation: usize,
    room: usize,
) -> Result<usize, Refusal>
    ensures { result ≡ encode_checked audience subject power citation room }
{
    if audience != KEY_LENGTH {
        return Err(Refusal::BadLength(audience));
    }
    if subject != KEY_LENGTH {
        return Err(Refusal::BadLength(subject));
    }
    if !citation_fits(citation) {
        return Err(Refusal::BadLength(citation));
    }
    Power::try_from(power).map_err(|_| Refusal::InvalidTag(power))?;
    let needed = PAYLOAD_LENGTH + citation;
    if room < needed {
        return Err(Refusal::SmallBuffer(needed));
    }
    Ok(needed)
}

// Whether a citation may be n bytes long: absent, or a digest.
#[tactic(auto, unfolding(crate::specs::Delegation::citation_fits))]
fn citation_fits(n: usize) -> bool
    ensures { result ≡ citation_fits n }
{
    n == 0 || n == DIGEST_LENGTH
}

// The payload's parts, each at its place. The checks have been made.
fn write_parts(audience: &[u8], subject: &[u8], power: u8, citation: &[u8], out: &mut [u8])
    requires { Room audience.now subject.now citation.now out.old }
    ensures { out.new ≡ front (encoded audience.now subject.now power citation.now) out.old }
{
    lent::bytes::copy_at(out, 0, audience);
    lent::bytes::copy_at(out, KEY_LENGTH, subject);
    let power_and_tag = [power, tag_for(citation.len())];
    lent::bytes::copy_at(out, POWER_AT, &power_and_tag);
    lent::bytes::copy_at(out, PAYLOAD_LENGTH, citation);
}

// The tag before a citation of n bytes.
#[tactic(auto, unfolding(crate::specs::Delegation::tag_for))]
fn tag_for(n: usize) -> u8
    ensures { result ≡ tag_for n }
{
    if n == 0 {
        CITATION_ABSENT
    } else {
        CITATION_PRESENT
    }
}
