// Which places the members and the closure of a subject take, as marks over the tables and as a word whose ones are counted.
ghost use Rattle.std.specs.Prelude.{◌≡◌, false, cond, ℕ, ◌+◌, ◌≤◌, ◌<◌, length, get_or, ltb};
ghost use Rattle.keyline.specs.Limits.{key_limit, delegation_limit, revocation_limit};
ghost use Rattle.answers.specs.Marks.{isMember, MemberWord, MemberMarks, Letters, letter_at, InNodes, Naming};

use keyline::limits::{DELEGATION_LIMIT, KEY_LIMIT, REVOCATION_LIMIT};
use power_levels::power::Power;

// Whether the key at place x, whose byte of the subject's row is given, is a member of the subject at place s.
fn is_member(byte: u8, x: usize, s: usize) -> bool
    ensures { result ≡ isMember byte x s }
{
    byte != 0 && x != s
}

// The members among the first n keys, as a set.
pub fn member_word(row: &[u8], n: usize, s: usize) -> u64
    requires { (n ≤ key_limit) × (n ≤ length row.now) }
    ensures { MemberWord row.now n s result }
{
    let mut w = 0;
    for x in 0..n {
        if is_member(row[x], x, s) {
            w = keyset::with(w, x);
        }
    }
    w
}

// The same as marks over the table of keys.
pub fn member_marks(row: &[u8], n: usize, s: usize) -> [bool; KEY_LIMIT]
    requires { (n ≤ key_limit) × (n ≤ length row.now) }
    ensures { MemberMarks row.now n s result }
{
    let mut on = [false; KEY_LIMIT];
    for x in 0..n {
        on[x] = is_member(row[x], x, s);
    }
    on
}

// The letter of the level that a byte of a row says.
fn letter(byte: u8) -> u8
    ensures { result ≡ letter_at byte }
{
    Power::from_rank(byte.saturating_sub(1)).byte()
}

// A row's letters.
pub fn letters(row: &[u8]) -> [u8; KEY_LIMIT]
    requires { length row.now ≡ key_limit }
    ensures { Letters row.now result }
{
    let mut out = [0; KEY_LIMIT];
    for x in 0..KEY_LIMIT {
        out[x] = letter(row[x]);
    }
    out
}

// The first n delegations whose subject is one of the nodes.
pub fn in_nodes(subject: &[u8], n: usize, nodes: u64) -> [bool; DELEGATION_LIMIT]
    requires { (n ≤ delegation_limit) × (n ≤ length subject.now) × ((d : ℕ) → get_or subject.now d 0 < key_limit) }
    ensures { InNodes subject.now n nodes result }
{
    let mut on = [false; DELEGATION_LIMIT];
    for d in 0..n {
        on[d] = keyset::has(nodes, usize::from(subject[d]));
    }
    on
}

// The first m revocations whose target is one of the marked delegations.
pub fn naming<'a>(target: &'a [u8], m: usize, on: &'a [bool], n: usize) -> [bool; REVOCATION_LIMIT]
    requires { (m ≤ revocation_limit) × (m ≤ length target.now) × (n ≤ length on.now) }
    ensures { Naming target.now m on.now n result }
{
    let mut marks = [false; REVOCATION_LIMIT];
    for j in 0..m {
        let d = usize::from(target[j]);
        marks[j] = d < n && on[d];
    }
    marks
}
