// The held keys: a table of runs, and their number.
ghost use Rattle.std.specs.Prelude.{◌≡◌, [], ◌∷◌, length};
ghost use Rattle.runs.specs.Members.{place, has, fresh};
ghost use Rattle.runs.specs.Table.{runs, GoodRuns};
ghost use Rattle.keyline.specs.Limits.{key_limit, key_length};

use keyline::limits::KEY_LIMIT;
use places::KeyPlace;
use runs::table;
use runs::table::SMALL_TABLE;

#[derive(Clone, Copy)]
pub struct Keys {
    pub table: [u8; SMALL_TABLE],
    pub count: usize,
}

// The place of a key; its number is n where the key is not held.
pub fn find(table: &[u8], n: usize, key: &[u8]) -> KeyPlace
    requires { GoodRuns key_limit table.now n }
    ensures { result.0 ≡ place (runs table.now n) key.now }
{
    KeyPlace(table::find(table, KEY_LIMIT, n, key))
}

pub fn is_held(table: &[u8], n: usize, key: &[u8]) -> bool
    requires { GoodRuns key_limit table.now n }
    ensures { result ≡ has (runs table.now n) key.now }
{
    table::find(table, KEY_LIMIT, n, key) < n
}

// How many keys more a key makes: none where it is held.
pub fn fresh_one(table: &[u8], n: usize, key: &[u8]) -> usize
    requires { GoodRuns key_limit table.now n }
    ensures { result ≡ length (fresh (runs table.now n) (key.now ∷ [])) }
{
    usize::from(!is_held(table, n, key))
}

// How many keys more three keys make: those that are not held, each once.
pub fn fresh_three(table: &[u8], n: usize, a: &[u8], b: &[u8], c: &[u8]) -> usize
    requires { GoodRuns key_limit table.now n × (length a.now ≡ key_length) × (length b.now ≡ key_length) }
    ensures { result ≡ length (fresh (runs table.now n) (a.now ∷ b.now ∷ c.now ∷ [])) }
{
    let x = is_held(table, n, a);
    let y = is_held(table, n, b) || a == b;
    let z = is_held(table, n, c) || a == c || b == c;
    usize::from(!x) + usize::from(!y) + usize::from(!z)
}
