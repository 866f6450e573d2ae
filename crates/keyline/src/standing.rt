// How a held delegation stands (document 01, "Standing").

#[derive(Clone, Copy, Debug, PartialEq, Eq)]
pub enum Standing {
    Live,
    // Dead, and a held revocation names it.
    Revoked,
    // Dead, and none does.
    Unsupported,
}
