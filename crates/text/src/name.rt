// Names stand for keys and digests: the 32 bytes are the name's own and then zeros. No name has a zero byte and at least one zero follows,
// so two names are equal where the bytes are, and ascending order of the bytes is that of the names.
use crate::words;
use keyline::limits::KEY_LENGTH;

// One byte fewer than a key or a digest has.
pub const NAME_LENGTH: usize = KEY_LENGTH - 1;

#[derive(Clone, Copy, Debug, Default, PartialEq, Eq)]
pub struct Name([u8; KEY_LENGTH]);

impl Name {
    // The name that a word is, or None where it is longer than a name may be.
    pub fn new(word: &[u8]) -> Option<Self> {
        if word.len() > NAME_LENGTH {
            return None;
        }
        let mut key = [0; KEY_LENGTH];
        key[..word.len()].copy_from_slice(word);
        Some(Name(key))
    }

    // The key or the digest that the name stands for.
    pub fn key(&self) -> &[u8; KEY_LENGTH] {
        &self.0
    }

    // The name as it is written: what stands before the first zero.
    pub fn text(&self) -> &[u8] {
        let key = self.0.as_slice();
        key.split(|b| *b == 0).next().unwrap_or(key)
    }
}

// The name that stands for a key or a digest.
impl From<[u8; KEY_LENGTH]> for Name {
    fn from(key: [u8; KEY_LENGTH]) -> Self {
        Name(key)
    }
}

// Whether a word can be a name: every word but a sign.
pub fn is_name(word: &[u8]) -> bool {
    word.first().is_some_and(|first| !words::is_sign(*first))
}
