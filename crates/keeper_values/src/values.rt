// The keys of units, their starting tag, and the sizes of their ring.
use octets::limits::{LONG_KEY, SHORT_KEY};

pub const PAGES: usize = 3;

pub const SLOTS: usize = 2;

pub fn long_key() -> [u8; LONG_KEY] {
    [0x4B; LONG_KEY]
}

pub fn short_key() -> [u8; SHORT_KEY] {
    [0x4B; SHORT_KEY]
}

pub fn starting_tag() -> [u8; 16] {
    [0x54; 16]
}
