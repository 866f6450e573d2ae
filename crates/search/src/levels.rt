// What is read off the levels that a search found. A row that is handed out has one byte for each key.

ghost use Rattle.std.specs.Prelude.{◌≡◌, ℕ, ◌<◌, get_or};
ghost use Rattle.keyset.specs.Word.{bit};
ghost use Rattle.places.specs.Limits.{key_limit, level_count};
ghost use Rattle.search.specs.Sets.{Says};
ghost use Rattle.search.specs.Levels.{word, On, height};

use crate::Levels;
use places::{KEY_LIMIT, KeyPlace, LEVEL_COUNT, RELAY};

// The keys that stand over the root at the level or above.
pub fn holders(levels: &Levels, root: KeyPlace, level: usize) -> u64
    requires { (root.0 < key_limit) × (level < level_count) }
    ensures { result ≡ word levels.now root.0 level }
{
    let r = root.0;
    levels[r * LEVEL_COUNT + level]
}

// Whether the key stands over the root at all.
pub fn reached(levels: &Levels, root: KeyPlace, key: KeyPlace) -> bool
    requires { (root.0 < key_limit) × (key.0 < key_limit) }
    ensures { Says result (On levels.now 0 root.0 key.0) }
{
    let r = root.0;
    keyset::has(levels[r * LEVEL_COUNT], key.0)
}

// Who stands over each root at all: a word for each root.
pub fn reach(levels: &Levels) -> [u64; KEY_LIMIT]
    ensures { (r : ℕ) → r < key_limit → get_or result r 0 ≡ word levels.now r 0 }
{
    let mut words = [0u64; KEY_LIMIT];
    for r in 0..KEY_LIMIT {
        words[r] = holders(levels, KeyPlace(r), RELAY);
    }
    words
}

// The key's byte in the root's row.
pub fn level(levels: &Levels, root: KeyPlace, key: KeyPlace) -> u8
    requires { (root.0 < key_limit) × (key.0 < key_limit) }
    ensures { result ≡ height levels.now root.0 key.0 }
{
    let r = root.0;
    let x = key.0;
    let mut v: u8 = 0;
    for l in 0..LEVEL_COUNT {
        v += digit(levels[r * LEVEL_COUNT + l], x);
    }
    v
}

fn digit(w: u64, i: usize) -> u8
    requires { i < key_limit }
    ensures { result ≡ bit w i }
{
    if keyset::has(w, i) { 1 } else { 0 }
}

// The root's row: a byte for each key.
pub fn row_of(levels: &Levels, root: KeyPlace) -> [u8; KEY_LIMIT]
    requires { root.0 < key_limit }
    ensures { (x : ℕ) → x < key_limit → get_or result x 0 ≡ height levels.now root.0 x }
{
    let mut row = [0u8; KEY_LIMIT];
    for x in 0..KEY_LIMIT {
        row[x] = level(levels, root, KeyPlace(x));
    }
    row
}
