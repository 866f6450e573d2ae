// A sample to cut arguments and payloads from: every byte is its own place, but for the power byte and the tag.
use keyline::limits::{POWER_AT, TAG_AT};
use std::array;

// One byte more than the longest payload.
pub(crate) const LENGTH: usize = 99;

#[derive(Clone, Copy)]
pub(crate) struct Sample([u8; LENGTH]);

impl Sample {
    pub(crate) fn new(power: u8, tag: u8) -> Sample {
        let mut bytes: [u8; LENGTH] = array::from_fn(|place| place as u8);
        bytes[POWER_AT] = power;
        bytes[TAG_AT] = tag;
        Sample(bytes)
    }

    // The n bytes from a place on, or none where the sample is too short.
    pub(crate) fn part(&self, from: usize, n: usize) -> &[u8] {
        self.0
            .get(from..)
            .and_then(|rest| rest.get(..n))
            .unwrap_or(&[])
    }
}
