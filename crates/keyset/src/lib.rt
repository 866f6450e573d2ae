// A set of keys as one 64-bit word: key i is a member where digit i is set.
// What the search and the coverage of delegations work on. Each contract says what the members are, digit by digit.
#![tactic(auto)]

ghost use Rattle.std.specs.Prelude.{◌≡◌, ℕ, ◌-◌, ◌<◌, max, min, eqb};
ghost use Rattle.keyset.specs.Word.{width, bit, size};

pub fn has(w: u64, i: usize) -> bool
    requires { i < width }
    ensures { result ≡ eqb (bit w i) 1 }
{
    (w >> i) % 2 == 1
}

// The set of one key.
pub fn only(i: usize) -> u64
    requires { i < width }
    ensures { (bit result i ≡ 1) × ((j : ℕ) → (j ≡ i → ⊥) → bit result j ≡ 0) }
{
    1 << i
}

pub fn union(a: u64, b: u64) -> u64
    ensures { (j : ℕ) → bit result j ≡ max (bit a j) (bit b j) }
{
    a | b
}

pub fn meet(a: u64, b: u64) -> u64
    ensures { (j : ℕ) → bit result j ≡ min (bit a j) (bit b j) }
{
    a & b
}

// The members of a that are not of b. (`a ^ (a & b)`: its law needs no complement, whose digits never end.)
pub fn minus(a: u64, b: u64) -> u64
    ensures { (j : ℕ) → bit result j ≡ bit a j - bit b j }
{
    a ^ (a & b)
}

pub fn with(w: u64, i: usize) -> u64
    requires { i < width }
    ensures { (bit result i ≡ 1) × ((j : ℕ) → (j ≡ i → ⊥) → bit result j ≡ bit w j) }
{
    union(w, only(i))
}

pub fn without(w: u64, i: usize) -> u64
    requires { i < width }
    ensures { (bit result i ≡ 0) × ((j : ℕ) → (j ≡ i → ⊥) → bit result j ≡ bit w j) }
{
    minus(w, only(i))
}

// The lowest member of a set that has one.
pub fn lowest(w: u64) -> usize
    requires { 0 < w }
    ensures { (result < width) × (bit w result ≡ 1) × ((j : ℕ) → j < result → bit w j ≡ 0) }
{
    u64::trailing_zeros(w) as usize
}

// How many members.
pub fn count(w: u64) -> usize
    ensures { result ≡ size width w }
{
    u64::count_ones(w) as usize
}
