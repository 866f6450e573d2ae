// What a wrong line ought to have had, in words.
use text::line::{LINE_LENGTH, TooLong};
use text::name::NAME_LENGTH;
use text::words::WordsError;
use thiserror::Error;

#[derive(Clone, Copy, Debug, PartialEq, Eq, Error)]
pub enum Expected {
    #[error("a line of at most {length} bytes", length = LINE_LENGTH)]
    ShortLine,
    #[error("words of bytes that show, without quotes and backslashes")]
    PlainBytes,
    #[error("fewer words")]
    FewerWords,
    #[error("a certificate, NAME: .., or a question, as members SUBJECT; --help has them all")]
    Statement,
    #[error("NAME: ISSUER > AUDIENCE LEVEL / SUBJECT, or NAME: ISSUER revokes NAME")]
    Certificate,
    #[error("NAME: ISSUER > AUDIENCE LEVEL / SUBJECT")]
    Delegation,
    #[error("NAME: ISSUER revokes NAME")]
    Revocation,
    #[error("a level: Relay, Read, Edit or Admin")]
    Level,
    #[error("names of at most {length} bytes", length = NAME_LENGTH)]
    ShortName,
    // The question's own form.
    #[error("members SUBJECT")]
    Members,
    #[error("power SUBJECT KEY")]
    Power,
    #[error("positive SUBJECT KEY")]
    Positive,
    #[error("live NAME")]
    Live,
    #[error("conveys NAME")]
    Conveys,
    #[error("standing NAME")]
    Standing,
    #[error("closure SUBJECT")]
    Closure,
    #[error("revocations of NAME")]
    RevocationsOf,
    #[error("delegations to SUBJECT AUDIENCE")]
    DelegationsTo,
    #[error("certificates alone")]
    Certificates,
    #[error("subjects alone")]
    Subjects,
    #[error("graph SUBJECT")]
    Graph,
}

impl From<TooLong> for Expected {
    fn from(_why: TooLong) -> Self {
        Expected::ShortLine
    }
}

impl From<WordsError> for Expected {
    fn from(why: WordsError) -> Self {
        match why {
            WordsError::StrangeByte => Expected::PlainBytes,
            WordsError::TooMany => Expected::FewerWords,
        }
    }
}
