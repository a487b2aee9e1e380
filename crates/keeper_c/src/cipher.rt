// Sealing, opening and wiping, offered alone.
ghost use Rattle.std.specs.Prelude.{◌≡◌, true};
ghost use Rattle.stops.specs.Stops.{then_stop};
ghost use Rattle.stops.specs.View.{check_number, stop_number};
ghost use Rattle.gcm.specs.Calls.{opening};
ghost use Rattle.protocol.specs.Operations.{wipe};
ghost use Rattle.keeper_c.specs.Calls.{answer, sealing_call, sealing_left};

use gcm::{open, seal, tag_wrong};
use octets::copy;
use stops::{Stop, StopIf, stop_number};

// 0, or the number of the stop.
pub(crate) fn answer(check: Result<(), Stop>) -> u32
    ensures { result ≡ answer (check_number check) }
{
    match check {
        Ok(()) => 0,
        Err(stop) => stop_number(stop),
    }
}

// The number of a check's stop, or of the one given, which holds, where the check passed.
pub(crate) fn stopped(check: Result<(), Stop>, stop: Stop) -> u32
    ensures { result ≡ answer (then_stop (check_number check) (stop_number stop) true) }
{
    answer(check.stop_if(true, stop))
}

// Seals `text` into `out`, and its tag into `tag`.
#[unsafe(no_mangle)]
pub extern "C" fn keeper_seal(
    key: &[u8],
    nonce: &[u8],
    aad: &[u8],
    text: &[u8],
    out: &mut [u8],
    tag: &mut [u8],
) -> u32
    ensures { sealing_left result out.new tag.new ≡ sealing_call key.now nonce.now aad.now text.now out.old tag.old }
{
    if tag_wrong(tag.len()) {
        return stop_number(Stop::KeyNonceTagSize);
    }
    match seal(key, nonce, aad, text, out) {
        Err(stop) => stop_number(stop),
        Ok(made) => {
            copy(&made, tag);
            0
        }
    }
}

// Opens `text` into `out` if `tag` is its tag.
#[unsafe(no_mangle)]
pub extern "C" fn keeper_open(
    key: &[u8],
    nonce: &[u8],
    aad: &[u8],
    text: &[u8],
    tag: &[u8],
    out: &mut [u8],
) -> u32
    ensures { (result ≡ answer (opening key.now nonce.now aad.now text.now tag.now out.old).stop) × (out.new ≡ (opening key.now nonce.now aad.now text.now tag.now out.old).out) }
{
    answer(open(key, nonce, aad, text, tag, out))
}

// Zeroes a buffer.
#[unsafe(no_mangle)]
pub extern "C" fn keeper_wipe(buffer: &mut [u8])
    ensures { buffer.new ≡ wipe buffer.old }
{
    keeper::wipe(buffer);
}
