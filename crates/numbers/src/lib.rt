// The delegation payload's reader and writer in numbers, as C takes them: each answers a refusal's number, or 0, and puts every other part of
// the answer behind a pointer of the caller's.
#![tactic(auto)]

ghost use Rattle.std.specs.Prelude.{◌≡◌, length};
ghost use Rattle.codec.specs.Delegation.{decoded, citation_of, encode_answer, after_encode};
ghost use Rattle.numbers.specs.Numbers.{decode_number, decode_beside, decode_power, decode_rank, encode_number, encode_beside, encode_written};

// The number of an answer that is no refusal.
pub const NOT_REFUSED: u8 = 0;

// Reads a payload. Behind the pointers: the value beside a refusal, the power's byte and rank, and the number of citation bytes.
#[tactic(auto, unfolding(codec::specs::Delegation::citation_of))]
pub fn decode(
    payload: &[u8],
    beside: &mut usize,
    power: &mut u8,
    rank: &mut u8,
    citation: &mut usize,
) -> u8
    ensures value { result ≡ decode_number (decoded payload.now) }
    ensures beside_after { beside.new ≡ decode_beside (decoded payload.now) }
    ensures power_after { power.new ≡ decode_power (decoded payload.now) }
    ensures rank_after { rank.new ≡ decode_rank (decoded payload.now) }
    ensures citation_after { citation.new ≡ length (citation_of payload.now) }
{
    match codec::delegation::decode(payload) {
        Ok(found) => {
            *beside = 0;
            *power = found.power.byte();
            *rank = found.power.rank();
            *citation = found.citation.len();
            NOT_REFUSED
        }
        Err(why) => {
            *beside = why.beside();
            *power = 0;
            *rank = 0;
            *citation = 0;
            why.number()
        }
    }
}

// Writes a payload to the front of out. Behind the pointers: the number of bytes written, and the value beside a refusal.
pub fn encode(
    audience: &[u8],
    subject: &[u8],
    power: u8,
    citation: &[u8],
    out: &mut [u8],
    written: &mut usize,
    beside: &mut usize,
) -> u8
    ensures value { result ≡ encode_number (encode_answer audience.now subject.now power citation.now out.old) }
    ensures written_after { written.new ≡ encode_written (encode_answer audience.now subject.now power citation.now out.old) }
    ensures beside_after { beside.new ≡ encode_beside (encode_answer audience.now subject.now power citation.now out.old) }
    ensures out_after { out.new ≡ after_encode audience.now subject.now power citation.now out.old }
{
    match codec::delegation::encode(audience, subject, power, citation, out) {
        Ok(n) => {
            *written = n;
            *beside = 0;
            NOT_REFUSED
        }
        Err(why) => {
            *written = 0;
            *beside = why.beside();
            why.number()
        }
    }
}
