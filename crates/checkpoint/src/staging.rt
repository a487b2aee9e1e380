// Sealing a checkpoint into a staging buffer.
ghost use Rattle.std.specs.Prelude.{◌≡◌, List, ◌++◌, ℕ, ◌+◌, ◌-◌, ◌^◌, ◌≤◌, ◌<◌, length};
ghost use Rattle.octets.specs.Limits.{nonce_length, tag_length};
ghost use Rattle.octets.specs.Octets.{part, put};
ghost use Rattle.octets.specs.Word.{word};
ghost use Rattle.aes.specs.Cipher.{cipher, aes};
ghost use Rattle.gcm.specs.Gcm.{AE_text, AE_tag};
ghost use Rattle.checkpoint.specs.Checkpoint.{Longer, head_words, words, head_length};
ghost use Rattle.checkpoint.specs.Sealing.{Sealable, Seals};
ghost use Rattle.checkpoint.specs.View.{view_unsealed};

use super::half::tag_at;
use super::layout::{HEAD_LENGTH, WORDS_LENGTH};
use aes::cipher::Schedule;
use gcm::counter_mode::encrypt;
use gcm::prepared::Prepared;
use octets::{copy_at, word_of};

// A checkpoint that is to be sealed.
#[derive(Clone, Copy)]
pub struct Unsealed<'a> {
    pub nonce: &'a [u8],
    pub packet: usize,
    pub restarts: usize,
    pub previous: &'a [u8],
    pub open_part: &'a [u8],
    pub secret: &'a [u8],
}

// A word of a kind and a value at offset i.
fn write_word(staging: &mut [u8], i: usize, kind: u32, value: usize)
    requires { (kind < 4) × (value < 2 ^ 30) × (i + 4 ≤ length staging.old) }
    ensures { staging.new ≡ put staging.old i (word kind value) }
{
    let bytes = word_of(kind, value);
    copy_at(&bytes, staging, i);
}

// The head: the packet number, both parts' lengths in words, the restarts, and the previous checkpoint's tag.
fn write_head(
    staging: &mut [u8],
    packet: usize,
    open: usize,
    secret: usize,
    restarts: usize,
    previous: &[u8],
)
    requires { (packet < 2 ^ 30) × («open» < 2 ^ 30) × (secret < 2 ^ 30) × (restarts < 2 ^ 30) × (length previous.now ≡ tag_length) × (head_length Longer ≤ length staging.old) }
    ensures { staging.new ≡ put staging.old 0 (words (head_words Longer packet «open» secret restarts) ++ previous.now) }
{
    write_word(staging, 0, 0, packet);
    write_word(staging, 4, 1, open);
    write_word(staging, 8, 2, secret);
    write_word(staging, 12, 3, restarts);
    copy_at(previous, staging, WORDS_LENGTH);
}

// The secret part, encrypted straight into staging from offset i on.
fn write_secret(schedule: &Schedule<'_>, nonce: &[u8], secret: &[u8], staging: &mut [u8], i: usize)
    requires { (length nonce.now ≡ nonce_length) × (i + length secret.now ≤ length staging.old) }
    ensures { staging.new ≡ put staging.old i (AE_text (cipher schedule.now.rounds schedule.now.keys.now) nonce.now secret.now) }
{
    encrypt(schedule, nonce, secret, &mut staging[i..]);
}

// The tag of what stands in staging, associated data up to offset i and the sealed secret part from there to j, goes to j.
fn write_tag(
    prepared: &Prepared<'_>,
    nonce: &[u8],
    staging: &mut [u8],
    i: usize,
    j: usize,
) -> [u8; 16]
    requires { (length nonce.now ≡ nonce_length) × (i ≤ j) × (j < 2 ^ 60) × (j + tag_length ≤ length staging.old) }
    ensures { (result ≡ AE_tag (cipher prepared.now.schedule.rounds prepared.now.schedule.keys.now) nonce.now (part staging.old 0 i) (part staging.old i (j - i))) × (staging.new ≡ put staging.old j result) }
{
    let tag = tag_at(prepared, nonce, staging, i, j);
    copy_at(&tag, staging, j);
    tag
}

// Seals a checkpoint to the front of staging, where what stands behind it stays, and answers its tag.
pub fn seal(prepared: &Prepared<'_>, unsealed: &Unsealed<'_>, staging: &mut [u8]) -> [u8; 16]
    requires { Sealable (view_unsealed unsealed.now) staging.old }
    ensures { (key : List ℕ) → cipher prepared.now.schedule.rounds prepared.now.schedule.keys.now ≡ aes key → Seals key (view_unsealed unsealed.now) result staging.old staging.new }
{
    let i = HEAD_LENGTH + unsealed.open_part.len();
    let j = i + unsealed.secret.len();
    write_head(
        staging,
        unsealed.packet,
        unsealed.open_part.len() / 4,
        unsealed.secret.len() / 4,
        unsealed.restarts,
        unsealed.previous,
    );
    copy_at(unsealed.open_part, staging, HEAD_LENGTH);
    write_secret(
        &prepared.schedule,
        unsealed.nonce,
        unsealed.secret,
        staging,
        i,
    );
    write_tag(prepared, unsealed.nonce, staging, i, j)
}
