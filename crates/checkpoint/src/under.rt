// Sealing and checking under a key that serves once: what is made of the key is overwritten before the call returns.
ghost use Rattle.std.specs.Prelude.{◌≡◌, List, ℕ, length};
ghost use Rattle.octets.specs.Limits.{nonce_length};
ghost use Rattle.aes.specs.Cipher.{cipher, aes};
ghost use Rattle.gcm.specs.Calls.{KeyLength};
ghost use Rattle.checkpoint.specs.Sealing.{Sealable, Seals};
ghost use Rattle.checkpoint.specs.Half.{form_of, good_tag};
ghost use Rattle.checkpoint.specs.View.{view_unsealed};

use super::half::{Head, good_tag};
use super::staging::{Unsealed, seal};
use gcm::prepared::{Prepared, with_key};

// Seals a checkpoint to the front of staging and answers its tag.
pub fn seal_under(key: &[u8], unsealed: &Unsealed<'_>, staging: &mut [u8]) -> [u8; 16]
    requires { KeyLength (length key.now) × Sealable (view_unsealed unsealed.now) staging.old }
    ensures { Seals key.now (view_unsealed unsealed.now) result staging.old staging.new }
{
    let mut sealing = |prepared: &Prepared<'_>| -> [u8; 16]
        requires { Sealable (view_unsealed unsealed.now) staging.now }
        ensures { (key : List ℕ) → cipher prepared.now.schedule.rounds prepared.now.schedule.keys.now ≡ aes key → Seals key (view_unsealed unsealed.entry.now) result staging.entry.now staging.exit.now }
    { seal(prepared, unsealed, staging) };
    with_key(key, &mut sealing)
}

// Whether the tag of a half with a good head is the standard's.
pub fn good_tag_under(key: &[u8], nonce: &[u8], head: &Head<'_>) -> bool
    requires { KeyLength (length key.now) × (length nonce.now ≡ nonce_length) }
    ensures { result ≡ good_tag (form_of head.now.half.now) key.now nonce.now head.now.half.now }
{
    with_key(key, &mut |prepared| good_tag(prepared, nonce, head))
}
