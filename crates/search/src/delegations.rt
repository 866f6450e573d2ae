// The delegations as one search walks them, lent: their columns, the index of these, and the grades at which they are usable.

ghost use Rattle.search.specs.Graph.{graph};
ghost use Rattle.search.specs.Index.{indexed_count, Ready};

use crate::edges::Edges;
use places::DELEGATION_LIMIT;

#[derive(Clone, Copy)]
pub struct Delegations<'a> {
    pub issuer: &'a [u8; DELEGATION_LIMIT],
    pub audience: &'a [u8; DELEGATION_LIMIT],
    pub subject: &'a [u8; DELEGATION_LIMIT],
    // the level c(d) plus one, and 0 where the delegation is not usable
    pub grades: &'a [u8; DELEGATION_LIMIT],
    pub edges: &'a Edges,
    // the subjects of usable delegations are among these
    pub subjects: u64,
    pub ghost ready: { Ready (graph issuer.now audience.now subject.now grades.now 0) (indexed_count edges.now.last) edges.now.issuers edges.now.last edges.now.earlier subjects },
}
