// The unit's sizes, its key and what its saves hold: texts that a hex viewer shows where they are not sealed.
use octets::limits::{NONCE_LENGTH, SLOT_LENGTH};

pub const PAGES: usize = 3;

pub const SLOTS: usize = 2;

// The bytes of a part, and of a checkpoint: 48 and both parts. A half of the FRAM holds just that.
pub const PART: usize = 8;

pub const HALF: usize = 64;

pub fn key() -> [u8; 32] {
    *b"the device key of this demo unit"
}

pub fn starting_tag() -> [u8; 16] {
    *b"the starting tag"
}

// The last decimal digit of n.
fn digit(n: usize) -> u8 {
    b'0' + (n % 10) as u8
}

// The nonce of start n, which has at most three digits.
pub fn nonce(n: usize) -> [u8; 12] {
    let mut text = *b"nonce no.000";
    text[9] = digit(n / 100);
    text[10] = digit(n / 10);
    text[11] = digit(n);
    text
}

// The open part of save n.
pub fn open_text(n: usize) -> [u8; 8] {
    let mut text = *b"volume 0";
    text[7] = digit(n);
    text
}

// The secret part of save n, which has at most two digits.
pub fn secret_text(n: usize) -> [u8; 8] {
    let mut text = *b"timer 00";
    text[6] = digit(n / 10);
    text[7] = digit(n);
    text
}

// The record of a nonce and a half (document 01, "The nonce ring").
pub fn record(nonce: [u8; NONCE_LENGTH], half: usize) -> [u8; SLOT_LENGTH] {
    let mut bytes = [0u8; SLOT_LENGTH];
    bytes[..NONCE_LENGTH].copy_from_slice(&nonce);
    bytes[12] = 0x40;
    bytes[15] = (half % 2) as u8;
    bytes
}

// The packet number that save n has last heard: its own number, but from save 42 on only repeats of packet 41.
pub fn packet(n: usize) -> u8 {
    n.min(41) as u8
}
