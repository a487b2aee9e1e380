// Checking what the assembly house programs (document 02, A.10): whether a ring and a FRAM image are what a save with a starting tag, run to
// its end, leaves. Nothing is stored.
#![tactic(auto)]

ghost use Rattle.std.specs.Prelude.{◌≡◌, false, ◌≤◌, length};
ghost use Rattle.octets.specs.Limits.{slot_length, fram_limit};
ghost use Rattle.stops.specs.Stops.{first_of, then_stop};
ghost use Rattle.stops.specs.View.{check_number};
ghost use Rattle.gcm.specs.Calls.{KeyLength};
ghost use Rattle.ring.specs.Ring.{half_named};
ghost use Rattle.ring.specs.View.{newest};
ghost use Rattle.checkpoint.specs.Fram.{fram_wrong, half_at};
ghost use Rattle.checkpoint.specs.Half.{form_of, stored_restarts};
ghost use Rattle.look.specs.View.{looks};
ghost use Rattle.look.specs.Stages.{look_half};
ghost use Rattle.factory.specs.Factory.{not_first, factory_stop};

use checkpoint::fram::half_at;
use checkpoint::half::{Head, read_head};
use checkpoint::layout::HEAD_LENGTH;
use look::{check_half, find};
use memories::Memories;
use octets::limits::NONCE_LENGTH;
use octets::part;
use ring::{Newest, half_named};
use stops::{Stop, StopIf};

// Stop 19, of what the ring reads as, the half that the newest record names, and the head that stands there.
fn not_first(found: Newest, half: usize, head: &Head<'_>) -> bool
    ensures { result ≡ not_first (newest found) half (form_of head.now.half.now) (stored_restarts (form_of head.now.half.now) head.now.half.now) }
{
    (found.page() != 0)
        | (found.slot() != 0)
        | (half != 0)
        | found.is_pending()
        | (head.restarts != 0)
        | (head.start != HEAD_LENGTH)
}

// Stops 11, 12 and 19 of the half that the newest record names.
fn check_named(found: Newest, record: &[u8], fram: &[u8], key: &[u8]) -> Result<(), Stop>
    requires { (fram_wrong fram_limit fram.now ≡ false) × KeyLength (length key.now) × (length «record».now ≡ slot_length) × (half_named «record».now ≤ 1) }
    ensures { let half = half_at fram.now (half_named «record».now) in check_number result ≡ then_stop (first_of (look_half key.now «record».now fram.now)) 19 (not_first (newest found) (half_named «record».now) (form_of half) (stored_restarts (form_of half) half)) }
{
    let number = half_named(record);
    let half = half_at(fram, number);
    let check = check_half(key, part(record, 0, NONCE_LENGTH), half);
    // a bad head is stop 11 already
    let Ok(head) = read_head(half) else {
        return check;
    };
    // what 19 asks is no secret, so the branch is on it, and the compiled code needs no jump on the tag (hosts/constant_time)
    if not_first(found, number, &head) {
        return check.stop_if(true, Stop::NotFirstSave);
    }
    check
}

// Passes exactly if some first save, run to its end, leaves this ring and, in its checkpoint's length of half A, these bytes. Else it stops with
// the first that applies of 1, 2, 3, 6, 7, 11 and 12, as a look does, and 19.
pub fn factory_check(memories: &Memories<'_, '_>, key: &[u8]) -> Result<(), Stop>
    ensures { check_number result ≡ factory_stop memories.now.ring.now memories.now.fram.now (looks memories.now.pages memories.now.slots key.now) }
{
    let reading = find(memories, key)?;
    check_named(reading.found, reading.record(), memories.fram, key)
}
