// Counter mode (SP 800-38D, algorithm 3).
ghost use Rattle.std.specs.Prelude.{◌≡◌, ◌+◌, ◌<◌, ◌≤◌, min, ◌++◌, length};
ghost use Rattle.octets.specs.Limits.{nonce_length};
ghost use Rattle.octets.specs.Octets.{put, bytes};
ghost use Rattle.aes.specs.Cipher.{cipher};
ghost use Rattle.gcm.specs.Gcm.{inc32, add_bytes, GCTR, AE_text};

use aes::cipher::{Schedule, encrypt_block};
use octets::{copy, word_at, word_bytes};

// The count in the counter block of the tag, which is J0, and in the first one of the text.
pub const TAG_COUNT: u32 = 1;

const TEXT_COUNT: u32 = 2;

// The counter block of a nonce and a count.
pub fn counter_block(nonce: &[u8], count: u32) -> [u8; 16]
    requires { length nonce.now ≡ nonce_length }
    ensures { result ≡ nonce.now ++ bytes 4 count }
{
    let mut block = [0u8; 16];
    copy(nonce, &mut block);
    let last = word_bytes(count);
    copy(&last, &mut block[12..]);
    block
}

// The next counter block: only the last 32 bits count up.
fn inc32(block: [u8; 16]) -> [u8; 16]
    ensures { result ≡ inc32 block }
{
    let mut next = block;
    let last = word_bytes(word_at(&block, 12).wrapping_add(1));
    copy(&last, &mut next[12..]);
    next
}

// Writes a block of text, or its beginning, to the front of out with the key stream added.
fn add_bytes(text: &[u8], stream: &[u8; 16], out: &mut [u8])
    requires { (length text.now ≤ 16) × (length text.now ≤ length out.old) }
    ensures { out.new ≡ put out.old 0 (add_bytes text.now stream.now) }
{
    for (i, (t, k)) in text.iter().zip(stream).enumerate() {
        out[i] = *t ^ *k;
    }
}

// Writes the text to the front of out with the key stream added, whose first counter block is icb.
pub fn gctr(schedule: &Schedule<'_>, icb: [u8; 16], text: &[u8], out: &mut [u8])
    requires { length text.now ≤ length out.old }
    ensures { out.new ≡ put out.old 0 (GCTR (cipher schedule.now.rounds schedule.now.keys.now) icb text.now) }
{
    let mut cb = icb;
    for (i, block) in text.chunks(16).enumerate() {
        let stream = encrypt_block(schedule, cb);
        add_bytes(block, &stream, &mut out[16 * i..]);
        let next = inc32(cb);
        cb = next;
    }
}

// Writes the encryption of a text, or the decryption of an encrypted one, to the front of out; what stands behind it stays.
pub fn encrypt(schedule: &Schedule<'_>, nonce: &[u8], text: &[u8], out: &mut [u8])
    requires { (length nonce.now ≡ nonce_length) × (length text.now ≤ length out.old) }
    ensures { out.new ≡ put out.old 0 (AE_text (cipher schedule.now.rounds schedule.now.keys.now) nonce.now text.now) }
{
    gctr(schedule, counter_block(nonce, TEXT_COUNT), text, out);
}
