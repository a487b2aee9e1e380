// A half that was read opened and sealed anew, with one restart more, for a power-up (document 01, "What the unit calls"). Everything that
// can stop it is tried before a byte of staging or state is written.
#![tactic(auto)]

ghost use Rattle.std.specs.Prelude.{◌≡◌, true, false, List, ℕ, ◌≤◌, ◌<◌, length};
ghost use Rattle.octets.specs.Limits.{restart_limit};
ghost use Rattle.stops.specs.Stops.{first_of};
ghost use Rattle.stops.specs.View.{check_number};
ghost use Rattle.aes.specs.Cipher.{cipher, aes};
ghost use Rattle.gcm.specs.Calls.{KeyLength};
ghost use Rattle.checkpoint.specs.Checkpoint.{Longer};
ghost use Rattle.checkpoint.specs.Half.{form_of, good_tag};
ghost use Rattle.protocol.specs.Operations.{outgrows};
ghost use Rattle.resealing.specs.Stages.{opening_lines, Resealable, Reseals};
ghost use Rattle.resealing.specs.Outcome.{Outcome};

use checkpoint::half::{Head, good_tag, open_part, open_secret};
use checkpoint::layout::EMPTY_LENGTH;
use checkpoint::staging::{Unsealed, seal};
use gcm::prepared::{Prepared, with_key};
use octets::limits::{RESTART_LIMIT, TAG_LENGTH};
use octets::part;
use stops::{Stop, StopIf};

// The last stop, 4: the half's checkpoint, sealed anew in the longer form, outgrows it.
fn outgrows(head: &Head<'_>) -> bool
    ensures { result ≡ outgrows Longer head.now.half.now }
{
    head.half.len() < EMPTY_LENGTH + head.open_part + head.secret
}

// Stops 12, 13, 10 and 4 of a half with a good head; its tag is good or not, and the nonce is used or not.
pub fn check_opening(head: &Head<'_>, good: bool, used: bool) -> Result<(), Stop>
    ensures { check_number result ≡ first_of (opening_lines head.now.half.now good used) }
{
    let worn = head.restarts == RESTART_LIMIT;
    let outgrown = outgrows(head);
    Ok(())
        .stop_if(!good, Stop::TagDiffers)
        .stop_if(worn, Stop::RestartLimit)
        .stop_if(used, Stop::NonceUsed)
        .stop_if(outgrown, Stop::BufferSize)
}

// A half with a good head and the nonce of the record that names it; and the nonce to seal it anew under, used or not.
#[derive(Clone, Copy)]
pub struct Restart<'a> {
    pub head: Head<'a>,
    pub latest: &'a [u8],
    pub nonce: &'a [u8],
    pub used: bool,
}

// Opens the secret part of a half into the front of state, and seals both parts, with one restart more and behind the half's own tag, into
// staging, in the longer form. The tag is good.
fn reopen(
    prepared: &Prepared<'_>,
    restart: &Restart<'_>,
    staging: &mut [u8],
    state: &mut [u8],
) -> [u8; 16]
    requires { Resealable restart.now.latest.now restart.now.head.half.now restart.now.nonce.now staging.old state.old × (restart.now.head.restarts < restart_limit) × (outgrows Longer restart.now.head.half.now ≡ false) }
    ensures { (key : List ℕ) → cipher prepared.now.schedule.rounds prepared.now.schedule.keys.now ≡ aes key → good_tag (form_of restart.now.head.half.now) key restart.now.latest.now restart.now.head.half.now ≡ true → Reseals key result restart.now.latest.now restart.now.head.half.now restart.now.nonce.now staging.old staging.new state.old state.new }
{
    let head = restart.head;
    open_secret(&prepared.schedule, restart.latest, &head, state);
    let end = head.start + head.open_part + head.secret;
    let unsealed = Unsealed {
        nonce: restart.nonce,
        packet: head.packet,
        restarts: head.restarts + 1,
        previous: part(head.half, end, TAG_LENGTH),
        open_part: open_part(head.half, head.start, head.open_part),
        secret: part(state, 0, head.secret),
    };
    seal(prepared, &unsealed, staging)
}

// Stops 12, 13, 10 and 4 of a half with a good head, or the checkpoint sealed anew; the nonce is used or not.
fn reseal_prepared(
    prepared: &Prepared<'_>,
    restart: &Restart<'_>,
    staging: &mut [u8],
    state: &mut [u8],
) -> Result<[u8; 16], Stop>
    requires { Resealable restart.now.latest.now restart.now.head.half.now restart.now.nonce.now staging.old state.old }
    ensures { (key : List ℕ) → cipher prepared.now.schedule.rounds prepared.now.schedule.keys.now ≡ aes key → Outcome key result restart.now.used restart.now.latest.now restart.now.head.half.now restart.now.nonce.now staging.old staging.new state.old state.new }
{
    let good = good_tag(prepared, restart.latest, &restart.head);
    // a branch of its own, so that the compiled code has one jump on the tag (hosts/constant_time)
    if !good {
        return Err(Stop::TagDiffers);
    }
    check_opening(&restart.head, good, restart.used)?;
    Ok(reopen(prepared, restart, staging, state))
}

// The same under a key: what is made of the key is overwritten before the call returns.
pub fn reseal(
    key: &[u8],
    restart: &Restart<'_>,
    staging: &mut [u8],
    state: &mut [u8],
) -> Result<[u8; 16], Stop>
    requires { KeyLength (length key.now) × Resealable restart.now.latest.now restart.now.head.half.now restart.now.nonce.now staging.old state.old }
    ensures { Outcome key.now result restart.now.used restart.now.latest.now restart.now.head.half.now restart.now.nonce.now staging.old staging.new state.old state.new }
{
    let mut resealing = |prepared: &Prepared<'_>| -> Result<[u8; 16], Stop>
        requires { Resealable restart.now.latest.now restart.now.head.half.now restart.now.nonce.now staging.now state.now }
        ensures { (key : List ℕ) → cipher prepared.now.schedule.rounds prepared.now.schedule.keys.now ≡ aes key → Outcome key result restart.entry.now.used restart.entry.now.latest.now restart.entry.now.head.half.now restart.entry.now.nonce.now staging.entry.now staging.exit.now state.entry.now state.exit.now }
    { reseal_prepared(prepared, restart, staging, state) };
    with_key(key, &mut resealing)
}
