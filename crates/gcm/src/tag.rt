// The steps of the hash subkey, and the tag of associated data and encrypted text (SP 800-38D, algorithm 4).
ghost use Rattle.std.specs.Prelude.{◌≡◌, ◌^◌, ◌<◌, length, replicate};
ghost use Rattle.octets.specs.Limits.{nonce_length};
ghost use Rattle.aes.specs.Cipher.{cipher};
ghost use Rattle.ghash.specs.Steps.{Steps};
ghost use Rattle.gcm.specs.Gcm.{hash_subkey, AE_tag};

use super::counter_mode::{TAG_COUNT, counter_block, gctr};
use super::prepared::Prepared;
use aes::cipher::{Schedule, encrypt_block};
use ghash::blocks::{block_bytes, block_of};
use ghash::field::steps;
use ghash::ghash;
use octets::fill;

// The steps of the hash subkey, made once per key.
pub fn hash_steps(schedule: &Schedule<'_>) -> [u64; 256]
    ensures { Steps (hash_subkey (cipher schedule.now.rounds schedule.now.keys.now)) result }
{
    let mut h = encrypt_block(schedule, [0u8; 16]);
    let t = steps(block_of(&h));
    fill(&mut h, 0);
    t
}

// The tag. It needs lengths whose number of bits fits a word of 64.
pub fn tag_of(prepared: &Prepared<'_>, nonce: &[u8], aad: &[u8], encrypted: &[u8]) -> [u8; 16]
    requires { (length nonce.now ≡ nonce_length) × (length aad.now < 2 ^ 60) × (length encrypted.now < 2 ^ 60) }
    ensures { result ≡ AE_tag (cipher prepared.now.schedule.rounds prepared.now.schedule.keys.now) nonce.now aad.now encrypted.now }
{
    let s = block_bytes(ghash(prepared.steps, aad, encrypted));
    let mut t = [0u8; 16];
    gctr(
        &prepared.schedule,
        counter_block(nonce, TAG_COUNT),
        &s,
        &mut t,
    );
    t
}

// Overwrites the steps, once they are not needed any more. A compiler that sees that nobody reads them again may leave it out.
pub fn wipe_steps(steps: &mut [u64])
    ensures { steps.new ≡ replicate (length steps.old) 0 }
{
    steps.fill(0);
}
