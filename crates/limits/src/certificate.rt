// Certificates made from numbers, and the calls that take one apart: an insertion and a lookup, of a delegation or of a revocation.

use crate::answered;
use crate::answered::Answered;
use crate::argument::Argument;
use keyline::limits::{CITED_LENGTH, DIGEST_LENGTH, KEY_LENGTH, PAYLOAD_LENGTH, POWER_AT, TAG_AT};
use keyline_memory::state::State;
use std::fmt;

#[derive(Clone, Copy)]
pub(crate) struct Certificate {
    pub(crate) digest: u8,
    pub(crate) issuer: u8,
    pub(crate) content: Content,
}

#[derive(Clone, Copy)]
pub(crate) enum Content {
    // The power is its byte.
    Delegation {
        audience: u8,
        subject: u8,
        power: u8,
        citation: Option<u8>,
    },
    Revocation {
        revoked: u8,
    },
}

pub(crate) fn delegation(
    digest: u8,
    issuer: u8,
    audience: u8,
    subject: u8,
    power: u8,
    citation: Option<u8>,
) -> Certificate {
    Certificate {
        digest,
        issuer,
        content: Content::Delegation {
            audience,
            subject,
            power,
            citation,
        },
    }
}

// An uncited delegation of Read.
pub(crate) fn reading(digest: u8, issuer: u8, audience: u8, subject: u8) -> Certificate {
    delegation(digest, issuer, audience, subject, b'R', None)
}

pub(crate) fn revocation(digest: u8, issuer: u8, revoked: u8) -> Certificate {
    Certificate {
        digest,
        issuer,
        content: Content::Revocation { revoked },
    }
}

impl Content {
    pub(crate) fn kind(self) -> &'static str {
        match self {
            Content::Delegation { .. } => "delegation",
            Content::Revocation { .. } => "revocation",
        }
    }

    // What an insertion takes behind the issuer: a payload, or the digest that is revoked.
    pub(crate) fn argument(self) -> Argument {
        match self {
            Content::Delegation {
                audience,
                subject,
                power,
                citation,
            } => {
                let mut bytes = [citation.unwrap_or(0); CITED_LENGTH];
                bytes[..KEY_LENGTH].fill(audience);
                bytes[KEY_LENGTH..POWER_AT].fill(subject);
                bytes[POWER_AT] = power;
                bytes[TAG_AT] = u8::from(citation.is_some());
                let length = citation.map_or(PAYLOAD_LENGTH, |_| CITED_LENGTH);
                Argument { bytes, length }
            }
            Content::Revocation { revoked } => Argument::whole(revoked),
        }
    }
}

impl Certificate {
    // The lengths of the three arguments of its insertion.
    pub(crate) fn lengths(self) -> [usize; 3] {
        [DIGEST_LENGTH, KEY_LENGTH, self.content.argument().length]
    }

    // Puts it into the set, each argument at the length given.
    pub(crate) fn insert(self, s: &mut State, lengths: [usize; 3]) -> Answered {
        let [digest, issuer, length] = lengths;
        let digest = Argument::of(self.digest, digest);
        let issuer = Argument::of(self.issuer, issuer);
        let bytes = self.content.argument().bytes;
        let third = Argument { bytes, length };
        answered::inserted(match self.content {
            Content::Delegation { .. } => {
                s.insert_delegation(digest.as_slice(), issuer.as_slice(), third.as_slice())
            }
            Content::Revocation { .. } => {
                s.insert_revocation(digest.as_slice(), issuer.as_slice(), third.as_slice())
            }
        })
    }

    // Looks for its digest, at the length given, among the certificates of its kind.
    pub(crate) fn look(
        self,
        s: &State,
        length: usize,
        issuer: &mut [u8],
        other: &mut [u8],
    ) -> Answered {
        let digest = Argument::of(self.digest, length);
        answered::looked(match self.content {
            Content::Delegation { .. } => s.delegation(digest.as_slice(), issuer, other),
            Content::Revocation { .. } => s.revocation(digest.as_slice(), issuer, other),
        })
    }
}

// Digest, then the keys, then what stands behind them.
impl fmt::Display for Certificate {
    fn fmt<W: fmt::Write>(&self, f: &mut fmt::Formatter<W>) -> fmt::Result {
        let digest = self.digest;
        let issuer = self.issuer;
        match self.content {
            Content::Delegation {
                audience,
                subject,
                power,
                citation,
            } => {
                let citation = citation.unwrap_or(0);
                write!(
                    f,
                    "delegation {digest}, keys {issuer} {audience} {subject}, "
                )?;
                write!(f, "power {power}, citation {citation}")
            }
            Content::Revocation { revoked } => {
                write!(f, "revocation {digest}, key {issuer}, of {revoked}")
            }
        }
    }
}
