// What both strata share: the facts at places, the contexts, and the delegations that a word of revocations names. And stratum 1: positive
// power, and which delegations are covered.
//
// A level is its rank, Relay 0 to Admin 3. A byte of a row, a cap and a conveyed level are a level plus one, and 0 for none. A grade is a
// delegation's level c(d) plus one, and 0 where it is not usable: one array of grades is the live set, the caps and the search's input.
//
// positive  the subjects, and the grades at the stated power
// covered   N(d), and which delegations are covered
// contexts  covered delegations that share one N(d)
// members   the delegations that a word of revocations names
#![tactic(auto)]

pub mod contexts;
pub mod covered;
pub mod members;
pub mod positive;

ghost use Rattle.coverage.specs.Fits.{Fits};

pub use covered::{coverage, revokers};
use places::{DELEGATION_LIMIT, REVOCATION_LIMIT};

// What the tables hold, at places.
#[derive(Clone, Copy)]
pub struct Facts {
    pub issuer: [u8; DELEGATION_LIMIT],
    pub audience: [u8; DELEGATION_LIMIT],
    pub subject: [u8; DELEGATION_LIMIT],
    pub power: [u8; DELEGATION_LIMIT],
    pub delegations: usize,
    pub revoker: [u8; REVOCATION_LIMIT],
    // the delegation that the revocation names, or a number that is no held delegation's place
    pub target: [u8; REVOCATION_LIMIT],
    pub revocations: usize,
    pub ghost fit: { Fits issuer audience subject power delegations revoker revocations },
}
