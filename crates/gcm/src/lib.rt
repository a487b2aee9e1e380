// AES-128-GCM and AES-256-GCM (SP 800-38D), by the key's length, with nonces of 12 bytes and tags of 16: sealing and opening alone, and
// their pieces for a caller that makes its key schedule once.
#![tactic(auto)]

pub mod counter_mode;
pub mod prepared;
pub mod tag;

ghost use Rattle.std.specs.Prelude.{◌≡◌, Ok, length};
ghost use Rattle.octets.specs.Limits.{key_lengths};
ghost use Rattle.stops.specs.View.{check_number};
ghost use Rattle.aes.specs.Cipher.{cipher};
ghost use Rattle.gcm.specs.Standard.{sealed_by, opened_by};
ghost use Rattle.gcm.specs.Calls.{key_wrong, nonce_wrong, tag_wrong, buffers_wrong, Sizes, seal_stop, sealing, open_length_stop, opening, sealed_as, opened_as};

use counter_mode::encrypt;
use octets::limits::{LONG_KEY, NONCE_LENGTH, SHORT_KEY, TAG_LENGTH, TEXT_LIMIT};
use octets::same;
use prepared::{Prepared, with_key};
use stops::{Stop, StopIf};
use tag::tag_of;

// Whether a key of n bytes is refused.
pub fn key_wrong(n: usize) -> bool
    ensures { result ≡ key_wrong key_lengths n }
{
    (n != SHORT_KEY) & (n != LONG_KEY)
}

// Whether a nonce of n bytes is refused.
pub fn nonce_wrong(n: usize) -> bool
    ensures { result ≡ nonce_wrong n }
{
    n != NONCE_LENGTH
}

// Whether a tag of n bytes is refused.
pub fn tag_wrong(n: usize) -> bool
    ensures { result ≡ tag_wrong n }
{
    n != TAG_LENGTH
}

// Whether associated data, text or output of so many bytes are refused.
fn buffers_wrong(aad: usize, text: usize, out: usize) -> bool
    ensures { result ≡ buffers_wrong aad text out }
{
    (aad > TEXT_LIMIT) | (text > TEXT_LIMIT) | (out < text)
}

// The checks of a sealing.
fn seal_check(key: usize, nonce: usize, aad: usize, text: usize, out: usize) -> Result<(), Stop>
    ensures { check_number result ≡ seal_stop key nonce aad text out }
{
    Ok(())
        .stop_if(key_wrong(key) | nonce_wrong(nonce), Stop::KeyNonceTagSize)
        .stop_if(buffers_wrong(aad, text, out), Stop::BufferSize)
}

// The checks of an opening's lengths.
fn open_length_check(
    key: usize,
    nonce: usize,
    aad: usize,
    text: usize,
    given: usize,
    out: usize,
) -> Result<(), Stop>
    ensures { check_number result ≡ open_length_stop key nonce aad text given out }
{
    Ok(())
        .stop_if(
            key_wrong(key) | nonce_wrong(nonce) | tag_wrong(given),
            Stop::KeyNonceTagSize,
        )
        .stop_if(buffers_wrong(aad, text, out), Stop::BufferSize)
}

// Seals where the lengths are right.
fn seal_prepared(
    prepared: &Prepared<'_>,
    nonce: &[u8],
    aad: &[u8],
    text: &[u8],
    out: &mut [u8],
) -> [u8; 16]
    requires { Sizes (length nonce.now) (length aad.now) (length text.now) (length out.old) }
    ensures { sealed_as (Ok result) out.new ≡ sealed_by nonce.now aad.now text.now out.old (cipher prepared.now.schedule.rounds prepared.now.schedule.keys.now) }
{
    encrypt(&prepared.schedule, nonce, text, out);
    tag_of(prepared, nonce, aad, &out[..text.len()])
}

// Writes the encrypted text to the front of out, and answers the tag of it and of the associated data. On a stop out stays as it was.
pub fn seal(
    key: &[u8],
    nonce: &[u8],
    aad: &[u8],
    text: &[u8],
    out: &mut [u8],
) -> Result<[u8; 16], Stop>
    ensures { sealed_as result out.new ≡ sealing key.now nonce.now aad.now text.now out.old }
{
    seal_check(key.len(), nonce.len(), aad.len(), text.len(), out.len())?;
    let mut sealing = |prepared: &Prepared<'_>| -> [u8; 16]
        requires { Sizes (length nonce.now) (length aad.now) (length text.now) (length out.now) }
        ensures { sealed_as (Ok result) out.exit.now ≡ sealed_by nonce.entry.now aad.entry.now text.entry.now out.entry.now (cipher prepared.now.schedule.rounds prepared.now.schedule.keys.now) }
    { seal_prepared(prepared, nonce, aad, text, out) };
    Ok(with_key(key, &mut sealing))
}

// Opens where the lengths are right. The tag is compared whole before anything is written.
fn open_prepared(
    prepared: &Prepared<'_>,
    nonce: &[u8],
    aad: &[u8],
    text: &[u8],
    given: &[u8],
    out: &mut [u8],
) -> Result<(), Stop>
    requires { Sizes (length nonce.now) (length aad.now) (length text.now) (length out.old) }
    ensures { opened_as result out.new ≡ opened_by nonce.now aad.now text.now given.now out.old (cipher prepared.now.schedule.rounds prepared.now.schedule.keys.now) }
{
    let right = tag_of(prepared, nonce, aad, text);
    let good = same(given, &right);
    Ok(()).stop_if(!good, Stop::TagDiffers)?;
    encrypt(&prepared.schedule, nonce, text, out);
    Ok(())
}

// Writes the decrypted text to the front of out, if the given tag is that of the text and of the associated data. On a stop out stays as
// it was.
pub fn open(
    key: &[u8],
    nonce: &[u8],
    aad: &[u8],
    text: &[u8],
    given: &[u8],
    out: &mut [u8],
) -> Result<(), Stop>
    ensures { opened_as result out.new ≡ opening key.now nonce.now aad.now text.now given.now out.old }
{
    open_length_check(
        key.len(),
        nonce.len(),
        aad.len(),
        text.len(),
        given.len(),
        out.len(),
    )?;
    let mut opening = |prepared: &Prepared<'_>| -> Result<(), Stop>
        requires { Sizes (length nonce.now) (length aad.now) (length text.now) (length out.now) }
        ensures { opened_as result out.exit.now ≡ opened_by nonce.entry.now aad.entry.now text.entry.now given.entry.now out.entry.now (cipher prepared.now.schedule.rounds prepared.now.schedule.keys.now) }
    { open_prepared(prepared, nonce, aad, text, given, out) };
    with_key(key, &mut opening)
}
